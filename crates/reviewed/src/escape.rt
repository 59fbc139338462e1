// A name from outside, in quotes, shown so that it cannot forge a line nor end its quotes: bytes that are no printable ASCII, the quote and
// the backslash, as `\x` and two digits.
ghost use Rattle.std.specs.Prelude.{◌≡◌};
ghost use Rattle.output.specs.Writing.{Added};
ghost use Rattle.reviewed.specs.Escape.{shown_plain, shown, escaped, quoted};

use output::bytes::Writer;

// Printable ASCII, but the quote and the backslash.
fn is_plain(b: u8) -> bool
    ensures { result ≡ shown_plain b }
{
    match b {
        b'"' | b'\\' => false,
        b' '..=b'~' => true,
        _ => false,
    }
}

// A byte of a name.
fn put_shown(out: &mut Writer, b: u8)
    ensures same_reference { out.new.out.ghost_name ≡ out.old.out.ghost_name }
    ensures added { Added out.old (shown b) out.new }
{
    if is_plain(b) {
        out.put(&[b]);
    } else {
        let [high, low] = kinds::hex(b);
        out.put(&[b'\\', b'x', high, low]);
    }
}

fn put_name(out: &mut Writer, name: &[u8])
    ensures same_reference { out.new.out.ghost_name ≡ out.old.out.ghost_name }
    ensures added { Added out.old (escaped name.now) out.new }
{
    for &b in name {
        put_shown(out, b);
    }
}

pub(crate) fn put_quoted(out: &mut Writer, name: &[u8])
    ensures same_reference { out.new.out.ghost_name ≡ out.old.out.ghost_name }
    ensures added { Added out.old (quoted name.now) out.new }
{
    out.put(b"\"");
    put_name(out, name);
    out.put(b"\"");
}
