//! Writing the texts of the faults of a strategy file.

ghost use Rattle.std.specs.{Prelude.{◌≡◌, ◌++◌, IfOk, codes, string_bytes}, Fmt.{decimal}};
ghost use Rattle.gs_file.specs.Answers.{fault_of as game_fault_of};
ghost use Rattle.gs_filter.specs.FaultText.{fault_text as class_fault_text};
ghost use Rattle.gs_frac.specs.FaultText.{fault_text as fraction_fault_text};
ghost use Rattle.gs_strategy.specs.Faults.{fault_of};
ghost use Rattle.gs_text.specs.FaultText.{fault_text};
ghost use Rattle.gs_reply.specs.StoreText.{part_text as text_of_part, plan_text as text_of_plan, store_text as text_of_store};

use gs_file::FileFault;
use gs_filter::ClassFault;
use gs_frac::FracFault;
use gs_seq::PlanFault;
use gs_strategy::{FilePart, StoreFault};
use gs_text::file_fault_text;
use std::alloc::{AllocError, Global};

/// Returns the name of a part.
fn part_text(part: FilePart) -> &'static str
    ensures { result.now ≡ text_of_part part }
{
    match part {
        FilePart::Top => "file",
        FilePart::Version => "version",
        FilePart::Classes => "classes",
        FilePart::Player1 => "player1",
        FilePart::Player2 => "player2",
        FilePart::Value => "value",
        FilePart::Gap1 => "gap1",
        FilePart::Gap2 => "gap2",
    }
}

/// Returns the text for a part of a wrong shape.
fn shape_text(alloc: Global, part: FilePart) -> Result<String, AllocError>
    ensures { IfOk result (λ s. string_bytes s ≡ codes "shape of " ++ text_of_part part) }
{
    let name = part_text(part);
    format!(in alloc; "shape of {name}")
}

/// Returns the text for a value that states no game.
fn game_text(alloc: Global, fault: &FileFault) -> Result<Vec<u8>, AllocError>
    ensures { IfOk result (λ v. v.items ≡ codes "game: " ++ fault_text (game_fault_of fault.now)) }
{
    let mut text = String::from_str(alloc, "game: ")?.into_bytes();
    let wrong = file_fault_text(alloc, fault)?;
    text.extend_from_slice(&wrong)?;
    Ok(text)
}

/// Returns the text for class numbers that are not classes.
fn classes_text(alloc: Global, fault: &ClassFault) -> Result<String, AllocError>
    ensures { IfOk result (λ s. string_bytes s ≡ codes "classes: " ++ class_fault_text fault.now) }
{
    format!(in alloc; "classes: {fault}")
}

/// Returns the text for a point and a class at which a player's weights do not add up.
fn flow_text(alloc: Global, player: u8, point: u32, class: u32) -> Result<String, AllocError>
    ensures { IfOk result (λ s. string_bytes s
        ≡ codes "player " ++ decimal player ++ codes " flow at point " ++ decimal point ++ codes " class " ++ decimal class) }
{
    format!(in alloc; "player {player} flow at point {point} class {class}")
}

/// Returns the player's number, followed by what is wrong with the weights.
fn player_text(alloc: Global, player: u8, wrong: &str) -> Result<String, AllocError>
    ensures { IfOk result (λ s. string_bytes s ≡ codes "player " ++ decimal player ++ wrong.now) }
{
    format!(in alloc; "player {player}{wrong}")
}

/// Returns the text for weights that are not a plan.
fn plan_text(alloc: Global, player: u8, fault: PlanFault) -> Result<String, AllocError>
    ensures { IfOk result (λ s. string_bytes s ≡ text_of_plan player fault) }
{
    match fault {
        PlanFault::Length { .. } => player_text(alloc, player, " length"),
        PlanFault::Total => player_text(alloc, player, " total"),
        PlanFault::Flow { point, class } => flow_text(alloc, player, point, class),
    }
}

/// Returns the text for a part that is not the text of a fraction.
fn fraction_fault(alloc: Global, part: FilePart, fault: &FracFault) -> Result<String, AllocError>
    ensures { IfOk result (λ s. string_bytes s ≡ text_of_part part ++ codes " " ++ fraction_fault_text fault.now) }
{
    let name = part_text(part);
    format!(in alloc; "{name} {fault}")
}

/// Returns what is wrong, followed by a number.
fn counted_text(alloc: Global, wrong: &str, number: u64) -> Result<String, AllocError>
    ensures { IfOk result (λ s. string_bytes s ≡ wrong.now ++ decimal number) }
{
    format!(in alloc; "{wrong}{number}")
}

/// Returns why a strategy file is refused, without a line feed.
pub fn store_fault_text(alloc: Global, fault: &StoreFault) -> Result<Vec<u8>, AllocError>
    ensures { IfOk result (λ text. text.items ≡ text_of_store (fault_of fault.now)) }
{
    let text = match fault {
        StoreFault::NotJson => String::from_str(alloc, "not JSON"),
        StoreFault::Shape(part) => shape_text(alloc, *part),
        StoreFault::Version(number) => counted_text(alloc, "version ", *number),
        StoreFault::Game(fault) => return game_text(alloc, fault),
        StoreFault::Classes(fault) => classes_text(alloc, fault),
        StoreFault::Plan { player, fault } => plan_text(alloc, *player, *fault),
        StoreFault::Fraction { part, fault } => fraction_fault(alloc, *part, fault),
        StoreFault::NotCanonical { at } => counted_text(alloc, "not canonical at ", *at),
    };
    Ok(text?.into_bytes())
}
