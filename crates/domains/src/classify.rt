// The domain that an import or an interface path belongs to.
ghost use Rattle.std.specs.Prelude.{◌≡◌};
ghost use Rattle.domains.specs.Domain.{domain_number};
ghost use Rattle.domains.specs.Classify.{classed_by, preview, heads, head_of, up_to_byte, path_domain, import_domain};

use crate::{Domain, lookup};
use text::find::find;
use text::order::{equal, starts};

// A field of preview 1. Descriptors of streams cannot be told from those of files: `fd_` is filesystem.
#[tactic(auto, unfolding(crate::specs::Classify::classed_by, crate::specs::Classify::passes, crate::specs::Classify::preview))]
fn preview_of(s: &[u8]) -> Domain
    ensures { domain_number result ≡ classed_by preview s.now }
{
    if starts(s, b"fd_") || starts(s, b"path_") {
        Domain::Filesystem
    } else if starts(s, b"environ_") || starts(s, b"args_") {
        Domain::Environment
    } else if starts(s, b"clock_") {
        Domain::Clock
    } else if starts(s, b"sock_") {
        Domain::Network
    } else if equal(s, b"random_get") {
        Domain::Random
    } else {
        Domain::Unknown
    }
}

// Each first part of a path.
const HEADS: [(&[u8], Domain); 6] = [
    (b"filesystem", Domain::Filesystem),
    (b"cli", Domain::Environment),
    (b"clocks", Domain::Clock),
    (b"sockets", Domain::Network),
    (b"random", Domain::Random),
    (b"io", Domain::Stdio),
];

fn head_of(s: &[u8]) -> Domain
    ensures { domain_number result ≡ classed_by heads s.now }
{
    lookup(&HEADS, s).unwrap_or(Domain::Unknown)
}

// A path without `wasi:`, up to `/` or `@`.
#[tactic(auto, unfolding(crate::specs::Classify::head_of))]
fn body_of(s: &[u8]) -> Domain
    ensures { domain_number result ≡ classed_by heads (head_of s.now) }
{
    let slash = find(s, b'/');
    versioned(&s[..slash])
}

// The same, where it has no `/`.
fn versioned(s: &[u8]) -> Domain
    ensures { domain_number result ≡ classed_by heads (up_to_byte 64 s.now) }
{
    let at = find(s, b'@');
    head_of(&s[..at])
}

#[tactic(auto, unfolding(crate::specs::Classify::path_domain))]
pub fn classify_path(path: &[u8]) -> Domain
    ensures { domain_number result ≡ path_domain path.now }
{
    if starts(path, b"wasi:") {
        return body_of(&path[5..]);
    }
    body_of(path)
}

#[tactic(auto, unfolding(crate::specs::Classify::import_domain))]
pub fn classify_import(source: &[u8], field: &[u8]) -> Domain
    ensures { domain_number result ≡ import_domain source.now field.now }
{
    let preview1 = starts(source, b"wasi_snapshot_preview1");
    let unstable = equal(source, b"wasi_unstable");
    if preview1 || unstable {
        return preview_of(field);
    }
    if starts(source, b"wasi:") {
        return classify_path(source);
    }
    Domain::Unknown
}
