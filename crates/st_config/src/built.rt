ghost use Rattle.std.specs.Prelude.{◌≡◌, true, IsTrue};
ghost use Rattle.hex.specs.Hex.{IsBytes};
ghost use Rattle.st_schedule.specs.Ranges.{FitsDest, FitsLine, KeepsLine};
ghost use Rattle.st_config.specs.Built.{IsBuilt, is_built};

use st_schedule::{Dest, Line};

/// Whether an event line is taken today.
pub fn is_built(line: &Line) -> bool
    requires { KeepsLine line.now }
    ensures answer { result ≡ is_built line.now }
    ensures within { IsTrue result → IsBuilt line.now }
{
    fits_if_built(line);
    matches!(
        line,
        Line::Client { .. }
            | Line::Deliver { .. }
            | Line::Drop { .. }
            | Line::Lose { .. }
            | Line::Flow { .. }
            | Line::Raw { .. }
            | Line::Show { .. }
    )
}

/// The numbers and bytes of a line that is taken are of their widths.
fn fits_if_built(line: &Line)
    ensures { is_built line.now ≡ true → FitsLine line.now }
{
    match line {
        Line::Client { client, op } => {
            let _client = client.0;
            bytes_fit(op.as_slice())
        }
        Line::Deliver { message, to } | Line::Drop { message, to } => {
            let _message = *message;
            dest_fits(*to)
        }
        Line::Lose { to } => dest_fits(*to),
        Line::Raw { to, bytes } => {
            dest_fits(*to);
            bytes_fit(bytes.as_slice())
        }
        Line::Show { message } => {
            let _message = *message;
        }
        _ => {}
    }
}

/// The numbers of a destination are of their widths.
fn dest_fits(to: Dest)
    ensures { FitsDest to }
{
    match to {
        Dest::Server(server) => {
            let _site = server.site;
            let _index = server.index;
        }
        Dest::Client(client) => {
            let _client = client.0;
        }
    }
}

/// Bytes are below 256.
fn bytes_fit(bytes: &[u8])
    ensures { IsBytes bytes.now }
{}
