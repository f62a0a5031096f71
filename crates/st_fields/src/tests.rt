ghost use Rattle.std.specs.Prelude.{◌+◌};
ghost use Rattle.st_fields.specs.Spelling.{byte};
ghost use Rattle.st_fields.specs.Reading.{byte_in};

use super::*;
use std::alloc::{AllocError, Global};
use std::test::*;

#[test]
fn a_list_is_its_elements(rt: HostRuntime) -> Result<(), Fail> {
    let alloc = rt.alloc();
    let mut seq: Bytes = Seq::new(alloc);
    assert!(rt; seq.is_empty());
    seq.push(7)?;
    seq.append(Seq::from_slice(alloc, b"abc")?)?;
    assert!(rt; seq.as_slice() == b"\x07abc".as_slice());
    assert_eq!(rt; seq.len(), 4);
    assert_eq!(rt; seq.get(3), Some(&b'c'));
    assert_eq!(rt; seq.get(4), None);
    assert_eq!(rt; seq.pop(), Some(b'c'));
    let copy = seq.copy(alloc)?;
    assert!(rt; copy.same(&seq));
    let longer = Some(Seq::from_vec(Vec::from_slice(alloc, b"\x07abd")?));
    assert!(rt; !longer.same(&Some(copy)));
    let copy = longer.copy(alloc)?;
    assert!(rt; longer.same(&copy));
    if 1 < seq.len() {
        seq.set(1, b'z');
    }
    assert!(rt; seq.into_vec().as_slice() == b"\x07zb".as_slice());
    Ok(())
}

#[test]
fn a_shared_value_is_the_value(rt: HostRuntime) -> Result<(), Fail> {
    let alloc = rt.alloc();
    let shared: Shared<Bytes> = Shared::new(alloc, Seq::from_slice(alloc, b"hi")?)?;
    let copy = shared.copy(alloc)?;
    assert!(rt; copy.get().same(shared.get()));
    assert_eq!(rt; copy.get().len(), 2);
    Ok(())
}

// The bytes by hand.
const FIELDS: &[u8] = b"MARK\x01\x02\x03\0\0\x01\0\0\0\0\0\0\0\0\x02\0\x02hi";

#[test]
fn fields_both_ways(rt: HostRuntime) -> Result<(), Fail> {
    let alloc = rt.alloc();
    let mut out = Vec::new(alloc);
    put_bytes(&mut out, b"MARK")?;
    put_byte(&mut out, 1)?;
    put_u16(&mut out, 0x0203)?;
    put_u32(&mut out, 256)?;
    put_u64(&mut out, 2)?;
    put_text(&mut out, b"hi")?;
    assert!(rt; out.as_slice() == FIELDS);

    let rest = read_mark(FIELDS, b"MARK")?;
    let (byte, rest) = read_byte(rest)?;
    assert_eq!(rt; byte, 1);
    let (number, rest) = read_u16(rest)?;
    assert_eq!(rt; number, 0x0203);
    let (number, rest) = read_u32(rest)?;
    assert_eq!(rt; number, 256);
    let (number, rest) = read_u64(rest)?;
    assert_eq!(rt; number, 2);
    let (text, rest) = read_text(alloc, rest, 2, 2)?;
    assert!(rt; text.as_slice() == b"hi".as_slice());
    assert!(rt; rest.is_empty());
    Ok(())
}

#[test]
fn ranges_are_kept(rt: HostRuntime) -> Result<(), Fail> {
    let bytes = b"\0\0\x01\x05";
    let refused = Some(FieldError::Refused { left: 4 });
    assert_eq!(rt; read_byte_in(bytes, 0, 0)?.0, 0);
    assert_eq!(rt; read_byte_in(bytes, 1, 9).err(), refused);
    assert_eq!(rt;
        read_byte_in(&bytes[3..], 256, 255).err(),
        Some(FieldError::Refused { left: 1 })
    );
    assert_eq!(rt; read_u16_in(&bytes[2..], 0x0105, 0x0105)?.0, 0x0105);
    assert_eq!(rt; read_u16_in(bytes, 1, 2).err(), refused);
    assert_eq!(rt; read_u32_in(bytes, 261, 261)?.0, 261);
    assert_eq!(rt; read_u32_in(bytes, 0, 260).err(), refused);
    assert_eq!(rt; read_above(bytes, 260, 261)?.0, 261);
    assert_eq!(rt; read_above(bytes, 261, 999).err(), refused);
    assert_eq!(rt; read_positive(bytes)?.0, 261);
    assert_eq!(rt; read_positive(b"\0\0\0\0").err(), refused);
    assert!(rt; read_bytes(bytes, 3)?.1 == b"\x05".as_slice());
    assert_eq!(rt;
        read_u32(&bytes[1..]).err(),
        Some(FieldError::Refused { left: 3 })
    );
    Ok(())
}

#[derive(Clone, Copy, Debug, PartialEq, Eq)]
struct Letter(u8);

impl Numbered for Letter {
    ghost number_of = { λ letter. letter.0 };

    fn number(self) -> u8 {
        self.0
    }
}

#[test]
fn a_kind_is_its_number(rt: HostRuntime) -> Result<(), Fail> {
    let letters = [Letter(3), Letter(7)];
    assert_eq!(rt; read_kind(b"\x07", &letters)?.0, Letter(7));
    assert_eq!(rt;
        read_kind(b"\x04\0", &letters).err(),
        Some(FieldError::Refused { left: 2 })
    );
    Ok(())
}

/// Reads rising bytes.
#[derive(Drop)]
struct Rising {
    least: u16,
}

impl ReadsEach<u8> for Rising {
    ghost reads = { λ r. byte_in r.least 255 };

    ghost after = { λ _ n. record { least = n + 1 } };

    fn read<'a>(&self, _alloc: Global, bytes: &'a [u8]) -> Result<(u8, &'a [u8]), FieldError> {
        read_byte_in(bytes, self.least, u8::MAX)
    }

    fn go_past(self, element: &u8) -> Rising {
        Rising {
            least: u16::from(*element) + 1,
        }
    }
}

impl Spelled for u8 {
    ghost spelling = { byte };

    ghost keeps = { λ _. Unit {0} };

    fn put(&self, out: &mut Vec<u8>) -> Result<(), AllocError> {
        put_byte(out, *self)?;
        Ok(())
    }
}

#[test]
fn lists_both_ways(rt: HostRuntime) -> Result<(), Fail> {
    let alloc = rt.alloc();
    let mut out = Vec::new(alloc);
    put_counted(&mut out, b"\x02\x05")?;
    put_list(&mut out, b"\x09")?;
    assert!(rt; out.as_slice() == b"\x02\x02\x05\x09".as_slice());
    let bytes = out.as_slice();
    let (read, rest) = read_counted(alloc, 1, 2, Rising { least: 0 }, bytes)?;
    assert!(rt; read.as_slice() == b"\x02\x05".as_slice());
    assert!(rt; rest == b"\x09".as_slice());
    let (read, _) = read_list(alloc, 3, Rising { least: 2 }, &bytes[1..])?;
    assert!(rt; read.as_slice() == b"\x02\x05\x09".as_slice());

    // The second byte doesn't rise; and more than one element was asked for.
    let refused = read_list(alloc, 2, Rising { least: 0 }, bytes).err();
    assert_eq!(rt; refused, Some(FieldError::Refused { left: 3 }));
    let refused = read_counted(alloc, 0, 1, Rising { least: 0 }, bytes).err();
    assert_eq!(rt; refused, Some(FieldError::Refused { left: 4 }));
    Ok(())
}

#[test]
fn a_whole_input_ends(rt: HostRuntime) -> Result<(), Fail> {
    assert_eq!(rt; read_whole(b"\x05", read_byte(b"\x05"))?, 5);
    let more = read_whole(b"\x05\x06\x07", read_byte(b"\x05\x06\x07"));
    assert_eq!(rt; more.err(), Some(WordsError::Malformed { place: 1 }));
    let short = read_whole(b"\x05", read_u16(b"\x05"));
    assert_eq!(rt; short.err(), Some(WordsError::Malformed { place: 0 }));
    Ok(())
}
