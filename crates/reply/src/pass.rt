ghost use Rattle.std.specs.Prelude.{◌≡◌, ◌-◌, ◌≤◌, length, take, drop};
ghost use Rattle.reply.specs.Pass.{counted, followed_by, passed_of, tells, told_count};

use crate::line::after_lf;
use numerals::plain_number;

/// How an item goes on after its first line: so many bytes of a body with its CR LF, and so many replies.
#[derive(Clone, Copy)]
pub struct Following {
    pub body: usize,
    pub items: usize,
}

/// Nothing follows a line that is a whole item.
const NOTHING: Following = Following { body: 0, items: 0 };

/// An item passed by: its bytes up to its parts, and how many replies are right below it.
#[derive(Clone, Copy)]
pub struct Passed {
    pub len: usize,
    pub items: usize,
}

/// The number of a line, if 32 bits hold it.
fn count(content: &[u8]) -> Option<u32>
    ensures { result ≡ counted content.now }
{
    u32::try_from(plain_number(content)?).ok()
}

/// Whether the line after a first byte tells a length or a count.
// kept: first bytes, here and below, and not their kinds: what is said of them is said of any byte, also of one of no kind
fn tells_count(first: u8) -> bool
    ensures { result ≡ tells first }
{
    matches!(first, b'$' | b'!' | b'=' | b'*' | b'~' | b'>' | b'%' | b'|')
}

/// The length or count that an item's first line tells, if it tells one.
fn told_count(first: u8, content: &[u8]) -> Option<u32>
    ensures { result ≡ told_count first content.now }
{
    if tells_count(first) {
        count(content)
    } else {
        None
    }
}

/// What follows a first line.
fn follows(first: u8, count: Option<u32>) -> Following
    ensures { result ≡ followed_by first count }
{
    let Some(n) = count else {
        return NOTHING;
    };
    let n = n as usize;
    match first as char {
        '$' | '!' | '=' => Following {
            body: n + 2,
            items: 0,
        },
        '*' | '~' | '>' => Following { body: 0, items: n },
        '%' => Following {
            body: 0,
            items: 2 * n,
        },
        '|' => Following {
            body: 0,
            items: 2 * n + 1,
        },
        _ => NOTHING,
    }
}

/// What stands between the first byte and the CR LF of a line of so many bytes.
fn content(item: &[u8], line: usize) -> &[u8]
    requires { line ≤ length item.now }
    ensures { result.now ≡ take (line - 3) (drop 1 item.now) }
{
    if line < 3 {
        return &item[..0];
    }
    &item[1..line - 2]
}

/// Passes the item that begins the bytes, and judges nothing of it.
pub(crate) fn pass(item: &[u8]) -> Passed
    ensures { result ≡ passed_of item.now }
{
    let [first, ..] = item else {
        return Passed { len: 0, items: 0 };
    };
    let line = after_lf(item);
    let Following { body, items } = follows(*first, told_count(*first, content(item, line)));
    Passed {
        len: line.saturating_add(body).min(item.len()),
        items,
    }
}
