ghost use Rattle.std.specs.Prelude.{◌≡◌, true, length, Ok, MatchResult, OnErr};
ghost use Rattle.journal.specs.Journal.{elements, loan, room};
ghost use Rattle.machine.specs.Calls.{fitting};
ghost use Rattle.machine.specs.RunCall.{RunCall};
ghost use Rattle.machine.specs.Step.{Unaltered};
ghost use Rattle.run_image.specs.Running.{RunsImage, Unrun, admittance};

use image::{LoadFault, Loaded, Name, load};
use journal::Journal;
use machine::{Cell, Live, Ran, Record};
use refusal::Refusal;
use rulebook::Rulebook;

/// How many bytes an image may have.
pub const LONGEST: usize = 32_768;

/// How many steps a routine may make; the journal has a place for each, so that no run ends for want of one.
pub const BUDGET: u32 = 100_000;

/// How many names are kept.
pub const NAMES: usize = 64;

/// Loads an image and runs it; the journal then tells what it did. Where the image is refused, all is as it was.
pub fn run_image<R: Rulebook>(
    image: &[u8],
    cells: &mut [Cell],
    registers: &mut [Cell],
    names: &mut Journal<Name>,
    rules: &mut R,
    journal: &mut Journal<Record>,
) -> Result<Ran, LoadFault>
    ensures runs { MatchResult result (λ ran. RunsImage (R.Rulebook.meaning rules.old) image.now (length cells.old) (elements names.old) (room names.old) (elements journal.old) (room journal.old) ran cells.new registers.new (elements names.new) (room names.new) (elements journal.new) (room journal.new)) (λ fault. Unrun image.now cells.old registers.old (elements names.old) (room names.old) (elements journal.old) (room journal.old) fault cells.new registers.new (elements names.new) (room names.new) (elements journal.new) (room journal.new)) }
    ensures names_loan { loan names.new ≡ loan names.old }
    ensures journal_loan { loan journal.new ≡ loan journal.old }
    ensures spares { OnErr result (rules.new ≡ rules.old) }
    ensures keeps { Unaltered (R.Rulebook.meaning rules.old) (R.Rulebook.meaning rules.new) }
{
    admit(image)?;
    let Loaded { live, broken: _ } = load(image, cells, registers, names)?;
    Ok(run(live, cells, registers, rules, journal))
}

/// Refuses what is too long for an image, at the first byte that is too many.
pub fn admit(image: &[u8]) -> Result<(), LoadFault>
    ensures { result ≡ admittance (length image.now) }
{
    if image.len() > LONGEST {
        return Err(LoadFault::Judged {
            refusal: Refusal::CutShort,
            place: LONGEST,
        });
    }
    Ok(())
}

// Runs a machine that was just loaded.
fn run<R: Rulebook>(
    live: Live,
    cells: &mut [Cell],
    registers: &mut [Cell],
    rules: &mut R,
    journal: &mut Journal<Record>,
) -> Ran
    requires { fitting live.state cells.old registers.old ≡ true }
    ensures runs { RunCall (R.Rulebook.meaning rules.old) live cells.old registers.old 100000 (elements journal.old) (room journal.old) (Ok result) cells.new registers.new (elements journal.new) (room journal.new) }
    ensures loan { loan journal.new ≡ loan journal.old }
    ensures keeps { Unaltered (R.Rulebook.meaning rules.old) (R.Rulebook.meaning rules.new) }
{
    live.run(cells, registers, rules, BUDGET, journal).unwrap()
}
