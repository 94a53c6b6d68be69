// Bytes that are ASCII, written as the text that they are.
ghost use Rattle.std.specs.Fmt.{WritesOnOk};
ghost use Rattle.std.specs.Str.{IsAscii};

use std::fmt;
use std::str::from_utf8;

pub(crate) fn write_ascii<W: fmt::Write>(bytes: &[u8], f: &mut fmt::Formatter<W>) -> fmt::Result
    requires { IsAscii bytes.now }
    ensures { WritesOnOk W.write_str_gives f.old result bytes.now f.new }
{
    f.write_str(from_utf8(bytes).unwrap())
}
