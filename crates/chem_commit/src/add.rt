// What was made, added at the ends of the lists.
ghost use Rattle.std.specs.Prelude.{◌≡◌, ◌++◌, OnOk, OnErr};
ghost use Rattle.chem_model.specs.Pour.{add_made};
ghost use Rattle.chem_commit.specs.inside.Parts.{appended, lengths, cut, Keeps};

use chem_model::{Items, Made, Memory, Numbered};

// Moves the members of the other list to the end, where there are any.
fn move_to_end<T: Drop>(list: &mut Items<T>, more: &mut Items<T>) -> Result<(), Memory>
    ensures ok { OnOk result (list.new ≡ list.old ++ more.old) }
    ensures err { OnErr result (list.new ≡ list.old) }
{
    if more.is_empty() {
        return Ok(());
    }
    list.append(more)
}

// Moves what was made to the ends of the lists. On want of memory each list still begins with what
// it held.
fn append(solution: &mut Numbered, made: &mut Made) -> Result<(), Memory>
    ensures ok { OnOk result (solution.new ≡ appended solution.old made.old) }
    ensures err { OnErr result (Keeps solution.old solution.new) }
{
    move_to_end(&mut solution.places, &mut made.births)?;
    move_to_end(&mut solution.named, &mut made.named)?;
    move_to_end(&mut solution.rules, &mut made.rules)?;
    move_to_end(&mut solution.atoms, &mut made.atoms)?;
    move_to_end(&mut solution.trace, &mut made.outs)
}

// How many members each list has.
#[derive(Clone, Copy, Debug)]
struct Lengths {
    places: usize,
    named: usize,
    rules: usize,
    atoms: usize,
    trace: usize,
}

// How many members each list has now.
fn lengths_of(solution: &Numbered) -> Lengths
    ensures { result ≡ lengths solution.now }
{
    Lengths {
        places: solution.places.len(),
        named: solution.named.len(),
        rules: solution.rules.len(),
        atoms: solution.atoms.len(),
        trace: solution.trace.len(),
    }
}

// Cuts each list back.
fn cut_back(solution: &mut Numbered, lengths: Lengths)
    ensures { solution.new ≡ cut lengths solution.old }
{
    solution.places.truncate(lengths.places);
    solution.named.truncate(lengths.named);
    solution.rules.truncate(lengths.rules);
    solution.atoms.truncate(lengths.atoms);
    solution.trace.truncate(lengths.trace);
}

// Adds what was made at a site. On want of memory nothing changes.
pub(crate) fn add(solution: &mut Numbered, site: u32, made: Made) -> Result<(), Memory>
    ensures ok { OnOk result (solution.new ≡ add_made solution.old site made) }
    ensures err { OnErr result (solution.new ≡ solution.old) }
{
    let lengths = lengths_of(solution);
    let next = made.next;
    let mut made = made;
    let outcome = append(solution, &mut made);
    drop(made);
    match outcome {
        Ok(()) => {
            solution.counts.set(site as usize, next);
            Ok(())
        }
        Err(memory) => {
            cut_back(solution, lengths);
            Err(memory)
        }
    }
}
