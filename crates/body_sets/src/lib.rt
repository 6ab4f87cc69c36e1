// The sets of a body (kind 4, request #108): whether a keyword's set is next, and whether it is good.
#![tactic(auto)]

ghost use Rattle.std.specs.Prelude.{◌≡◌, ◌≤◌, length, get_or, drop};
ghost use Rattle.spec.specs.Form.{form_in};
ghost use Rattle.spec.specs.Records.{set_is_next};
ghost use Rattle.body_sets.specs.Sets.{set_good};

use spec::Format;

// Keyword k's set is next, at `at`.
pub fn is_set(body: &[u8], at: usize, format: Format, k: usize) -> bool
    requires { at ≤ length body.now }
    ensures { result ≡ set_is_next (form_in format) k (drop at body.now) }
{
    format.sets && 2 <= body.len() - at && k == body[at] as usize && body[at + 1] == 4
}

// The bytes, which start with a set's number and kind, start with a good set for a keyword of length n and a chunk of length `size`: all there, not
// empty, and with no other bits than those of the starts 1 to n - 1 - size.
pub fn set_good(bytes: &[u8], n: usize, size: usize) -> bool
    requires { (2 ≤ length bytes.now) × (get_or bytes.now 1 0 ≡ 4) × (n ≤ 32) }
    ensures { result ≡ set_good n (get_or bytes.now 0 0) size bytes.now }
{
    if bytes.len() < 6 {
        return false;
    }
    let set = field::read(bytes, 2, 4);
    set != 0 && set % 2 == 0 && size < n && set >> (n - size) == 0
}
