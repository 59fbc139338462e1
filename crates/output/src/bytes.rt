// Bytes written into a lent buffer one after another: one walk counts them, a second writes them.
ghost use Rattle.std.specs.Prelude.{◌≡◌, ◌≤◌, true, false};
ghost use Rattle.domains.specs.Domain.{slug};
ghost use Rattle.output.specs.Bytes.{Puts, most};

use domains::{domain_of, domain_slug};

// The bytes put at `at`, if so wished and if they fit; and the place after them, at most the last number.
pub fn put(out: &mut [u8], at: usize, bytes: &[u8], go: bool) -> usize
    ensures { Puts out.old at go bytes.now result out.new }
{
    let Some(end) = at.checked_add(bytes.len()) else {
        return usize::MAX;
    };
    if go && end <= out.len() {
        // not `copy_from_slice`: an archive for C would call `memmove` for it
        for j in 0..bytes.len() {
            out[at + j] = bytes[j];
        }
    }
    end
}

// The slug of domain d; nothing where there is no such domain.
pub fn put_domain(out: &mut [u8], at: usize, d: usize, go: bool) -> usize
    ensures { Puts out.old at go (slug d) result out.new }
{
    match domain_of(d) {
        Some(domain) => {
            let word = domain_slug(domain);
            let bytes = word.bytes;
            put(out, at, &bytes[..word.len], go)
        }
        None => put(out, at, b"", go),
    }
}

// A lent buffer and the place in it where the next bytes go. They are counted, and written where that is wished and they fit.
#[derive(Drop)]
pub struct Writer<'a> {
    pub out: &'a mut [u8],
    pub at: usize,
    pub go: bool,
    // the place is a number of 64 bits
    ghost counted: { at ≤ most },
}

impl<'a> Writer<'a> {
    ghost use Rattle.output.specs.Writing.{Added};

    // From `at` on; what is put is only counted.
    pub fn counting(out: &'a mut [u8], at: usize) -> Writer<'a>
        ensures same_reference { result.out.ghost_name ≡ out.entry.ghost_name }
        ensures is { (result.out.now ≡ out.old) × (result.at ≡ at) × (result.go ≡ false) }
    {
        Writer { out, at, go: false }
    }

    // From `at` on; what is put is written.
    pub fn writing(out: &'a mut [u8], at: usize) -> Writer<'a>
        ensures same_reference { result.out.ghost_name ≡ out.entry.ghost_name }
        ensures is { (result.out.now ≡ out.old) × (result.at ≡ at) × (result.go ≡ true) }
    {
        Writer { out, at, go: true }
    }

    pub fn put(&mut self, bytes: &[u8])
        ensures same_reference { self.new.out.ghost_name ≡ self.old.out.ghost_name }
        ensures puts { Puts self.old.out.now self.old.at self.old.go bytes.now self.new.at self.new.out.now }
        ensures added { Added self.old bytes.now self.new }
    {
        self.at = put(self.out, self.at, bytes, self.go);
    }

    // The slug of domain d; nothing where there is no such domain.
    pub fn put_domain(&mut self, d: usize)
        ensures same_reference { self.new.out.ghost_name ≡ self.old.out.ghost_name }
        ensures puts { Puts self.old.out.now self.old.at self.old.go (slug d) self.new.at self.new.out.now }
        ensures added { Added self.old (slug d) self.new }
    {
        self.at = put_domain(self.out, self.at, d, self.go);
    }
}
