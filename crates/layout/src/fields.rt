// The fields of 24 bytes, and the 24 bytes of a call.
ghost use Rattle.std.specs.Prelude.{◌≡◌, ◌+◌, ◌*◌, ◌≤◌, length};
ghost use Rattle.layout.specs.Fields.{record_length, letters, word, head_of, list_of, bytes_of_word, bytes_of};

use crate::marks::code_of;
use crate::{Bytes, Call, Head, Mark, Numbers, Octets};

// Two bytes as one number, big-endian.
fn pair(high: u8, low: u8) -> u16
    ensures { result ≡ high * 256 + low }
{
    high as u16 * 256 + low as u16
}

fn double(high: u16, low: u16) -> u32
    ensures { result ≡ high * 0x10000 + low }
{
    high as u32 * 0x10000 + low as u32
}

// The letters of a mark, the first in the high byte.
pub fn letters_at(s: &Bytes) -> u16
    ensures { result ≡ letters s.now }
{
    pair(s[0], s[1])
}

// Four bytes from i on, big-endian.
fn word_at(s: &[u8], i: usize) -> u32
    requires { i + 4 ≤ length s.now }
    ensures { result ≡ word s.now i }
{
    double(pair(s[i], s[i + 1]), pair(s[i + 2], s[i + 3]))
}

#[tactic(auto, unfolding(crate::specs::Fields::head_of))]
pub fn head_at(s: &Bytes, mark: Mark) -> Head
    ensures { result ≡ head_of mark s.now }
{
    Head {
        mark,
        number: s[2],
        priority: s[3],
        len: s[4],
        kind: s[9],
        interrupt: s[10],
        endkind: s[11],
        first: word_at(s, 12),
        period: word_at(s, 16),
        endtime: word_at(s, 20),
    }
}

#[tactic(auto, unfolding(crate::specs::Fields::list_of))]
pub fn list_at(s: &Bytes) -> Numbers
    ensures { result ≡ list_of s.now }
{
    [s[5], s[6], s[7], s[8]]
}

// A number as four bytes, big-endian.
fn bytes_of_word(n: u32) -> Octets
    ensures { result ≡ bytes_of_word n }
{
    [
        (n / 0x1000000) as u8,
        (n / 0x10000 % 256) as u8,
        (n / 256 % 256) as u8,
        (n % 256) as u8,
    ]
}

pub fn bytes_of(c: Call) -> Bytes
    ensures { result ≡ bytes_of c }
{
    let h = c.head;
    let l = c.list;
    let letters = code_of(h.mark);
    let f = bytes_of_word(h.first);
    let p = bytes_of_word(h.period);
    let e = bytes_of_word(h.endtime);
    [
        (letters / 256) as u8,
        (letters % 256) as u8,
        h.number,
        h.priority,
        h.len,
        l[0],
        l[1],
        l[2],
        l[3],
        h.kind,
        h.interrupt,
        h.endkind,
        f[0],
        f[1],
        f[2],
        f[3],
        p[0],
        p[1],
        p[2],
        p[3],
        e[0],
        e[1],
        e[2],
        e[3],
    ]
}
