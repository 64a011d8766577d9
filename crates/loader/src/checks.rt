// What is checked of the text as a whole.
ghost use Rattle.std.specs.Prelude.{◌≡◌, ◌≤◌, length, not};
ghost use Rattle.std.specs.List.{position};
ghost use Rattle.text.specs.Split.{split};
ghost use Rattle.verdicts.specs.declared.fault.LoadFault.TheVariants.{StrayByte as Stray, Unfinished as Unended};
ghost use Rattle.verdicts.specs.Refused.{feeds};
ghost use Rattle.verdicts.specs.Texts.{passed, plain_byte, stray_line, unfinished_line};

use verdicts::LoadFault;

// By comparisons: with `matches!` a search through a whole text takes longer.
fn is_plain(b: u8) -> bool
    ensures { result ≡ plain_byte b }
{
    b == b'\n' || b == b'\t' || (b >= b' ' && b <= b'~')
}

fn find_stray(text: &[u8]) -> Option<usize>
    ensures { result ≡ position (λ b. not (plain_byte b)) text.now }
{
    text.iter().position(|b| !is_plain(*b))
}

#[tactic(auto, using(crate::proofs::WholeText::feeds_counted))]
fn count_feeds(bytes: &[u8]) -> usize
    ensures feeds { result ≡ feeds bytes.now }
    ensures few { result ≤ length bytes.now }
{
    bytes.iter().filter(|b| **b == b'\n').count()
}

// That each byte is one that a sheet may have.
#[tactic(auto, using(crate::proofs::WholeText::stray_found, crate::proofs::WholeText::stray_none))]
pub(crate) fn check_bytes(text: &[u8]) -> Result<(), LoadFault>
    ensures { result ≡ passed (stray_line 1 text.now) Stray }
{
    match find_stray(text) {
        Some(at) => Err(LoadFault::StrayByte(1 + count_feeds(&text[..at]))),
        None => Ok(()),
    }
}

// That a line feed ends the last line.
#[tactic(auto, using(crate::proofs::WholeText::last_ended, crate::proofs::WholeText::last_unended))]
pub(crate) fn check_end(text: &[u8]) -> Result<(), LoadFault>
    ensures { result ≡ passed (unfinished_line 1 (split 10 text.now)) Unended }
{
    let [.., last] = text else {
        return Ok(());
    };
    if *last == b'\n' {
        return Ok(());
    }
    Err(LoadFault::Unfinished(1 + count_feeds(text)))
}
