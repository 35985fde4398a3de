// Names of entries and headings by file and number, copied into lent output from the tables; likewise the words that an
// entry's value may be, from crate `kinds`, and the shape of its kind.
#![tactic(auto)]

ghost use Rattle.std.specs.Prelude.{◌≡◌, ◌<◌, length, MatchOption};
ghost use Rattle.std.proofs.Math.Option.{none, some};
ghost use Rattle.kinds.specs.Kind.{kind_of};
ghost use Rattle.refusals.specs.Answer.{answer_is};
ghost use Rattle.refusals.specs.Refusals.{refusal_with};
ghost use Rattle.names.specs.Names.{name_with, entry_name, heading_name, entry_kind, entry_word, kind_answer_of, Copies};
ghost use Rattle.names.specs.Steps.{Stands};

use kinds::shapes::Shape;
use refusals::{Refusal, RefusalKind};

// What a copied name says: how many bytes it has, and the number of its section.
#[derive(Clone, Copy, Debug, PartialEq, Eq)]
pub struct Named {
    pub length: u32,
    pub section: u32,
}

// Where an entry stands: its section, and its number there.
#[derive(Clone, Copy)]
struct Standing {
    section: usize,
    entry: usize,
}

// Where the entry of a number stands.
#[tactic(auto, using(crate::proofs::Sections::walk))]
fn find_standing(file: u32, entry: u32) -> Option<Standing>
    ensures { MatchOption result (entry_name file entry ≡ none) (Stands file entry) }
{
    let mut left = entry as usize;
    for section in 0..tables::section_count(file) {
        let size = tables::entry_count(file, section);
        if left < size {
            return Some(Standing {
                section,
                entry: left,
            });
        }
        left -= size;
    }
    None
}

// A name of that section into the output, where the output has room for it.
fn copy_name(file: u32, section: usize, name: &[u8], output: &mut [u8]) -> Result<Named, Refusal>
    requires { (length name.now < 4294967296) × (section < 4294967296) }
    ensures { Copies file (some (name_with name.now section)) output.old output.new result }
{
    let size = name.len();
    if output.len() < size {
        return Err(Refusal {
            kind: RefusalKind::OutputTooShort,
            file,
            line: 0,
        });
    }
    lines::write(output, name);
    Ok(Named {
        length: size as u32,
        section: section as u32,
    })
}

// Number 16: there is no such file, entry, heading or word.
fn absent(file: u32) -> Refusal
    ensures { result ≡ refusal_with RefusalKind.FileOrAxles file 0 }
{
    Refusal {
        kind: RefusalKind::FileOrAxles,
        file,
        line: 0,
    }
}

// The name of a file's entry of that number, in the order of the pairs with all nine axles.
#[tactic(auto, using(crate::proofs::Copied::copies))]
pub fn copy_entry_name(file: u32, entry: u32, output: &mut [u8]) -> Result<Named, Refusal>
    ensures { Copies file (entry_name file entry) output.old output.new result }
{
    let Some(standing) = find_standing(file, entry) else {
        return Err(absent(file));
    };
    let name = tables::name(file, standing.section, standing.entry);
    copy_name(file, standing.section, name, output)
}

// The heading of a file's section of that number, brackets included.
#[tactic(auto, using(crate::proofs::Copied::copies))]
pub fn copy_heading(file: u32, section: u32, output: &mut [u8]) -> Result<Named, Refusal>
    ensures { Copies file (heading_name file section) output.old output.new result }
{
    let place = section as usize;
    if tables::section_count(file) <= place {
        return Err(absent(file));
    }
    copy_name(file, place, tables::heading(file, place), output)
}

// The number of the kind of an entry that stands there. Before the row of entry k stand k entries, the heading of its
// section and those of the sections before.
#[tactic(auto, using(crate::proofs::EntryKinds::kinds_of))]
fn kind_number(file: u32, entry: u32, standing: Standing) -> u8
    requires { Stands file entry standing }
    ensures { entry_kind file entry ≡ some (kind_of result) }
{
    tables::row_kinds::row_kind(file, entry as usize + standing.section + 1)
}

// What a filled value of a file's entry of that number must look like.
#[tactic(auto, using(crate::proofs::EntryKinds::kinds_of))]
pub fn kind_of_entry(file: u32, entry: u32) -> Result<Shape, Refusal>
    ensures { answer_is result ≡ kind_answer_of file (entry_kind file entry) }
{
    let Some(standing) = find_standing(file, entry) else {
        return Err(absent(file));
    };
    Ok(kinds::shapes::shape_of(kind_number(file, entry, standing)))
}

// The word of that number of a file's entry.
#[tactic(auto, using(crate::proofs::EntryKinds::words_of))]
pub fn copy_word(file: u32, entry: u32, word: u32, output: &mut [u8]) -> Result<Named, Refusal>
    ensures { Copies file (entry_word file entry word) output.old output.new result }
{
    let Some(standing) = find_standing(file, entry) else {
        return Err(absent(file));
    };
    let kind = kind_number(file, entry, standing);
    if kinds::shapes::shape_of(kind).words <= word {
        return Err(absent(file));
    }
    copy_name(
        file,
        standing.section,
        kinds::words::word_of(kind, word as usize),
        output,
    )
}
