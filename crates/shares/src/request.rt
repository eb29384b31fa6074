// What the command line asks for.
ghost use Rattle.std.specs.Prelude.{◌≡◌, ◌<◌, ◌∷◌, map, length, IfOk, string_bytes, codes, decimal, MatchOption, ◌≢◌};
ghost use Rattle.shares.specs.Requests.{Spelled, Unspelled, Numbers, NoNumbers};

use std::alloc::{AllocError, Global};
use text::number::read_number;

#[derive(Drop)]
pub enum Request {
    // The table of a weight.
    Table {
        width: u32,
        weight: u32,
    },
    // The nearest weights with so many rules.
    Nearest {
        width: u32,
        target: u32,
        limit: u32,
    },
    // The plan of the services with the tags 0, 1, ..
    Plan {
        width: u32,
        capacity: u32,
        targets: Vec<u32>,
    },
}

// The request that the words spell, if they spell one.
pub fn read_request(heap: Global, words: &[String]) -> Result<Option<Request>, AllocError>
    ensures { IfOk result (λ o. MatchOption o (Unspelled (map string_bytes words.now)) (Spelled (map string_bytes words.now))) }
{
    let Some((order, rest)) = words.split_first() else {
        return Ok(None);
    };
    let Some(numbers) = read_numbers(heap, rest)? else {
        return Ok(None);
    };
    request_of(heap, order.as_str(), numbers.as_slice())
}

fn request_of(heap: Global, order: &str, numbers: &[u32]) -> Result<Option<Request>, AllocError>
    ensures { IfOk result (λ o. MatchOption o (Unspelled (order.now ∷ map decimal numbers.now)) (Spelled (order.now ∷ map decimal numbers.now))) }
{
    match order {
        "table" => Ok(table_of(numbers)),
        "nearest" => Ok(nearest_of(numbers)),
        "plan" => plan_of(heap, numbers),
        _ => Ok(None),
    }
}

// A width and a weight.
fn table_of(numbers: &[u32]) -> Option<Request>
    ensures { MatchOption result (length numbers.now ≢ 2) (Spelled (codes "table" ∷ map decimal numbers.now)) }
{
    let [width, weight] = *numbers else {
        return None;
    };
    Some(Request::Table { width, weight })
}

// A width, a target and a rule limit.
fn nearest_of(numbers: &[u32]) -> Option<Request>
    ensures { MatchOption result (length numbers.now ≢ 3) (Spelled (codes "nearest" ∷ map decimal numbers.now)) }
{
    let [width, target, limit] = *numbers else {
        return None;
    };
    Some(Request::Nearest {
        width,
        target,
        limit,
    })
}

// A width, a capacity and any number of targets.
fn plan_of(heap: Global, numbers: &[u32]) -> Result<Option<Request>, AllocError>
    ensures { IfOk result (λ o. MatchOption o (length numbers.now < 2) (Spelled (codes "plan" ∷ map decimal numbers.now))) }
{
    let [width, capacity, targets @ ..] = numbers else {
        return Ok(None);
    };
    Ok(Some(Request::Plan {
        width: *width,
        capacity: *capacity,
        targets: Vec::from_slice(heap, targets)?,
    }))
}

// Each word is a number below 2^32 in decimal digits with no zero in front, or the whole is nothing.
fn read_numbers(heap: Global, words: &[String]) -> Result<Option<Vec<u32>>, AllocError>
    ensures { IfOk result (λ o. MatchOption o (NoNumbers (map string_bytes words.now)) (λ v. Numbers (map string_bytes words.now) v.items)) }
{
    // Kept as a loop: with a `collect` into an `Option` the case of none did not prove.
    let mut numbers = Vec::new(heap);
    for word in words {
        let Some(number) = read_number(word.as_bytes()) else {
            return Ok(None);
        };
        numbers.push(number)?;
    }
    Ok(Some(numbers))
}
