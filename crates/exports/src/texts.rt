// Lines of text. No call here has a pool.
ghost use Rattle.nets.specs.Networks.{net_words};
ghost use Rattle.text.specs.Answers.{entered_line};
ghost use Rattle.text_ipv6_read.specs.Reader.{entered_line6};
ghost use Rattle.text_either.specs.Either.{entered_either};
ghost use Rattle.calls_replies.specs.Replies.{enter_reply};
ghost use Rattle.calls_packed.specs.Packed.{line_reply};
ghost use Rattle.exports.specs.Exported.{WithRow, WritesLine};

use calls_packed::{of_line, packed, put_row};
use calls_replies::{of_entered, of_written};

// Reads a line of an IPv4 network. The row has the network, cleared, and the value is its family.
#[unsafe(no_mangle)]
pub extern "C" fn marlbrace_read_line(line: &[u8], row: &mut [u64; 3]) -> u64
    ensures { WithRow (line_reply (enter_reply (entered_line line.now))) result row.old row.new }
{
    let a = of_line(of_entered(text::read_line(line)));
    put_row(row, a);
    packed(a)
}

// Reads a line of an IPv6 network, likewise.
#[unsafe(no_mangle)]
pub extern "C" fn marlbrace_read_line_six(line: &[u8], row: &mut [u64; 3]) -> u64
    ensures { WithRow (line_reply (enter_reply (entered_line6 line.now))) result row.old row.new }
{
    let a = of_line(of_entered(text_ipv6_read::read_line(line)));
    put_row(row, a);
    packed(a)
}

// Reads a line of either family, likewise.
#[unsafe(no_mangle)]
pub extern "C" fn marlbrace_read_line_either(line: &[u8], row: &mut [u64; 3]) -> u64
    ensures { WithRow (line_reply (enter_reply (entered_either line.now))) result row.old row.new }
{
    let a = of_line(of_entered(text_either::read_line(line)));
    put_row(row, a);
    packed(a)
}

// Writes the line of a network of either family, cleared. The value is how many bytes it has.
#[unsafe(no_mangle)]
pub extern "C" fn marlbrace_write_line(family: u8, hi: u64, lo: u64, len: u8, out: &mut [u8]) -> u64
    ensures { WritesLine (net_words family hi lo len) result out.old out.new }
{
    packed(of_written(text_either::write_line(crate::net(family, hi, lo, len), out)))
}
