use st_texts::{
    after_front, before_end, bytes_have_a_text, numbers_are_their_digits, put_hex, read_hex,
    read_number,
};
use std::test::Fail;

#[test]
fn numbers_have_one_spelling(rt: HostRuntime) -> Result<(), Fail> {
    assert_eq!(rt; read_number("0", 0, 255), Some(0));
    assert_eq!(rt; read_number("255", 0, 255), Some(255));
    assert_eq!(rt;
        read_number("18446744073709551615", 1, u64::MAX),
        Some(u64::MAX)
    );
    for text in [
        "",
        "256",
        "00",
        "07",
        "+7",
        "-7",
        " 7",
        "7 ",
        "7.0",
        "0x7",
        "18446744073709551616",
    ] {
        assert_eq!(rt; read_number(text, 0, 255), None, "{text}");
    }
    assert_eq!(rt; read_number("0", 1, 4), None);
    Ok(())
}

#[test]
fn hexadecimal_of_either_case(rt: HostRuntime) -> Result<(), Fail> {
    let alloc = rt.alloc();
    let bytes = read_hex(alloc, "00fFA9")?.ok_or("digits")?;
    assert_eq!(rt; bytes.as_slice(), [0, 255, 169].as_slice());
    assert!(rt; read_hex(alloc, "-")?.ok_or("a dash")?.is_empty());
    for text in ["", "0", "--", "0g", "a b", "00-"] {
        assert!(rt; read_hex(alloc, text)?.is_none(), "{text}");
    }
    Ok(())
}

#[test]
fn hexadecimal_is_printed_in_lower_case(rt: HostRuntime) -> Result<(), Fail> {
    let mut out = String::from_str(rt.alloc(), "show ")?;
    put_hex(rt.alloc(), &mut out, &[0, 255, 169])?;
    put_hex(rt.alloc(), &mut out, &[])?;
    assert!(rt; out.as_str() == "show 00ffa9-");
    Ok(())
}

#[test]
fn laws_ask_nothing(rt: HostRuntime) {
    numbers_are_their_digits();
    bytes_have_a_text();
    assert!(rt; true);
}

#[test]
fn fronts_and_ends_are_taken_off(rt: HostRuntime) {
    assert_eq!(rt; after_front("c7", "c"), Some("7"));
    assert_eq!(rt; after_front("7", "c"), None);
    assert_eq!(rt; before_end("7\"", "\""), Some("7"));
    assert_eq!(rt; before_end("7", "\""), None);
}
