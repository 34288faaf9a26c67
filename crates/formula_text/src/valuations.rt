ghost use Rattle.std.specs.Prelude.{[], ◌∷◌, map};
ghost use Rattle.formula_text.specs.ValuationWords.{valuation_word, truth_digit};
ghost use Rattle.report_words.specs.Words.{later_text};
ghost use Rattle.report_words.specs.Writing.{Writes};

use edge::NoMemory;
use formulas::Valuation;
use report_words::write_bytes;

/// Appends the word of a valuation; on `NoMemory` what was appended is a part of it from its start.
#[tactic(auto, using(formulas::specs::WordLaws::word_size))]
pub fn write_valuation(valuation: Valuation, into: &mut Vec<u8>) -> Result<(), NoMemory>
    ensures { Writes result into.old.items into.new.items (valuation_word valuation) }
{
    for atom in 0..valuation.atoms {
        write_truth(valuation.get(atom), into)?;
    }
    Ok(())
}

/// Appends `1` for true and `0` for false.
fn write_truth(value: bool, into: &mut Vec<u8>) -> Result<(), NoMemory>
    ensures { Writes result into.old.items into.new.items (truth_digit value ∷ []) }
{
    if value {
        write_bytes(b"1", into)
    } else {
        write_bytes(b"0", into)
    }
}

/// Appends the words of valuations, each behind a blank; on `NoMemory` what was appended is a part
/// of them from its start.
pub fn write_valuations(valuations: &[Valuation], into: &mut Vec<u8>) -> Result<(), NoMemory>
    ensures { Writes result into.old.items into.new.items
        (later_text (map valuation_word valuations.now)) }
{
    for valuation in valuations {
        write_bytes(b" ", into)?;
        write_valuation(*valuation, into)?;
    }
    Ok(())
}
