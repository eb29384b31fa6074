// One line of a console, read as a command.
ghost use Rattle.std.specs.Prelude.{◌≡◌, ℕ, ◌^◌, ◌<◌, List, [], ◌∷◌, ◌++◌, IfOk, decimal, MatchResult, ◌≢◌};
ghost use Rattle.rules.specs.declared.refusal.Refusal.TheVariants.{Unreadable};
ghost use Rattle.commands.specs.Lines.{Reads, Small, Lawful, Without};

use crate::command::Command;
use model::order::Order;
use rules::refusal::Refusal;
use text::number::read_number;

// The command that a line spells, its line feed included. Every other line is unreadable.
#[tactic(auto, using(crate::proofs::Laws::lawful))]
pub fn read_line(line: &[u8]) -> Result<Command, Refusal>
    ensures meaning { Reads line.now result }
    ensures small { IfOk result Small }
    ensures law { Lawful }
{
    let [words @ .., b'\n'] = line else {
        return Err(Refusal::Unreadable);
    };
    match words {
        [letter] => read_alone(*letter as char),
        [letter, b' ', fields @ ..] => read_order(*letter as char, fields),
        _ => Err(Refusal::Unreadable),
    }
}

// A letter with nothing behind it.
fn read_alone(letter: char) -> Result<Command, Refusal>
    ensures meaning { Reads (letter ∷ 10 ∷ []) result }
    ensures small { IfOk result Small }
{
    match letter {
        'p' => Ok(Command::List),
        _ => Err(Refusal::Unreadable),
    }
}

// A letter, and the number fields behind it.
fn read_order(letter: char, fields: &[u8]) -> Result<Command, Refusal>
    ensures meaning { Reads (letter ∷ 32 ∷ (fields.now ++ 10 ∷ [])) result }
    ensures small { IfOk result Small }
{
    match letter {
        'm' => {
            let (width, capacity) = two_numbers(fields)?;
            Ok(Command::Make { width, capacity })
        }
        'e' => {
            let (tag, target) = two_numbers(fields)?;
            Ok(Command::Place(Order::Enter { tag, target }))
        }
        'r' => {
            let (tag, target) = two_numbers(fields)?;
            Ok(Command::Place(Order::Reweigh { tag, target }))
        }
        'w' => {
            let tag = one_number(fields)?;
            Ok(Command::Place(Order::Withdraw { tag }))
        }
        'l' => {
            let (tag, address) = two_numbers(fields)?;
            Ok(Command::Look { tag, address })
        }
        _ => Err(Refusal::Unreadable),
    }
}

// One number below 2^32, and nothing else. Kept as `let .. else`: that is how each number field is taken.
fn one_number(text: &[u8]) -> Result<u32, Refusal>
    ensures { MatchResult result (λ n. text.now ≡ decimal n) (λ why. (why ≡ Unreadable) × ((n : ℕ) → n < 2 ^ 32 → text.now ≢ decimal n)) }
{
    let Some(number) = read_number(text) else {
        return Err(Refusal::Unreadable);
    };
    Ok(number)
}

// Two numbers below 2^32 with one space between them, and nothing else.
fn two_numbers(text: &[u8]) -> Result<(u32, u32), Refusal>
    ensures { MatchResult result (λ pair. text.now ≡ decimal pair.0 ++ 32 ∷ decimal pair.1) (λ why. (why ≡ Unreadable) × ((m n : ℕ) → m < 2 ^ 32 → n < 2 ^ 32 → text.now ≢ decimal m ++ 32 ∷ decimal n)) }
{
    let (front, back) = split_at_space(text)?;
    let Some(first) = read_number(front) else {
        return Err(Refusal::Unreadable);
    };
    let Some(second) = read_number(back) else {
        return Err(Refusal::Unreadable);
    };
    Ok((first, second))
}

// What stands before the first space and what stands behind it.
fn split_at_space(text: &[u8]) -> Result<(&[u8], &[u8]), Refusal>
    ensures { MatchResult result (λ parts. (text.now ≡ parts.0.now ++ 32 ∷ parts.1.now) × Without 32 parts.0.now) (λ why. (why ≡ Unreadable) × Without 32 text.now) }
{
    let at = text
        .iter()
        .position(|byte| *byte == b' ')
        .ok_or(Refusal::Unreadable)?;
    Ok((&text[..at], &text[at + 1..]))
}
