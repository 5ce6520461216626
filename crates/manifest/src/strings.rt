// The nine strings of a manifest.
ghost use Rattle.std.specs.Prelude.{◌≡◌};
ghost use Rattle.manifest.specs.Judged.{past, past_all, nine_strings, strings_agree, exactly};

use crate::content::text_at;
use lists::same_bytes;
use manifest_shape::parts::sized_end;

// After the string at a position, which has to be t.
#[tactic(auto, unfolding(crate::specs::Judged::past))]
fn past(s: &[u8], at: usize, t: &[u8]) -> Option<usize>
    ensures { result ≡ past s.now at (exactly t.now) }
{
    let end = sized_end(s, at)?;
    same_bytes(text_at(s, Some(at)), t).then_some(end)
}

// After the nine strings, which have to be as wanted; the eighth is any text.
#[tactic(auto, unfolding(crate::specs::Judged::past, crate::specs::Judged::past_all, crate::specs::Judged::nine_strings))]
fn nine_past(s: &[u8], at: usize) -> Option<usize>
    ensures { result ≡ past_all s.now at nine_strings }
{
    let bundle_type = past(s, at, b"arboricx.bundle.manifest.v1")?;
    let calculus = past(s, bundle_type, b"tree-calculus-executable-object")?;
    let algorithm = past(s, calculus, b"tree-calculus.v1")?;
    let domain = past(s, algorithm, b"sha256")?;
    let payload = past(s, domain, b"arboricx.merkle.node.v1")?;
    let semantics = past(s, payload, b"arboricx.merkle.payload.v1")?;
    let evaluation = past(s, semantics, b"tree-calculus.v1")?;
    let abi = sized_end(s, evaluation)?;
    past(s, abi, b"arboricx.abi.tree.v1")
}

// Whether the strings from a position on are the nine.
#[tactic(auto, unfolding(crate::specs::Judged::strings_agree))]
pub(crate) fn strings_agree(s: &[u8], at: usize) -> bool
    ensures { result ≡ strings_agree s.now at }
{
    nine_past(s, at).is_some()
}
