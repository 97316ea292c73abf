// SM_CTRL.
#![tactic(auto)]

ghost use Rattle.std.specs.Prelude.{◌≡◌};
ghost use Rattle.interface.specs.Places.{tables};
ghost use Rattle.interface.specs.Verdicts.{Call};
ghost use Rattle.interface.specs.Rules.{Runs};
ghost use Rattle.interface.specs.Semaphores.{sm_ctrl};
ghost use Rattle.capabilities.specs.Callers.{Called};
ghost use Rattle.semaphores.specs.Operations.{number_of, Reads};

use layout::ObjectNumber;
use reply::{Refusal, Reply};

// What is done to a semaphore.
#[derive(Clone, Copy)]
enum Operation {
    Up,
    Down,
}

// A number that no operation has.
#[derive(Clone, Copy)]
struct NoOperation;

impl TryFrom<u32> for Operation {
    type Error = NoOperation;

    ghost try_from_gives = { Reads };

    fn try_from(number: u32) -> Result<Operation, NoOperation> {
        match number {
            0 => Ok(Operation::Up),
            1 => Ok(Operation::Down),
            _ => Err(NoOperation),
        }
    }
}

impl Operation {
    // The number of the operation, which is also that of its permission's bit.
    fn number(self) -> u32
        ensures { result ≡ number_of self }
    {
        match self {
            Operation::Up => 0,
            Operation::Down => 1,
        }
    }
}

// SM_CTRL on sound tables: counts a semaphore up or down.
pub fn sm_ctrl(
    caller: ObjectNumber,
    selector: u32,
    operation: u32,
    places: &[u32],
    objects: &mut [u32],
) -> Reply
    requires { Called places.now objects.old caller.0 }
    ensures { (c : Call) → c.caller ≡ caller.0 → c.first ≡ selector → c.second ≡ operation →
        Runs sm_ctrl c (tables places.now objects.old) (tables places.now objects.new) result }
{
    let Ok(operation) = Operation::try_from(operation) else {
        return Err(Refusal::BadPar);
    };
    let place = capabilities::object_place(capabilities::domain(places, objects, caller), selector);
    if !capabilities::is_permitted(places, objects, place, objects::SM, operation.number()) {
        return Err(Refusal::BadCap);
    }
    let number = ObjectNumber::named_by(places::load(places, place));
    let count = objects::load(objects, number, objects::COUNT);
    match operation {
        Operation::Up => {
            if count == u32::MAX {
                return Err(Refusal::BadPar);
            }
            objects::set_count(objects, number, count + 1);
        }
        Operation::Down => {
            if count == 0 {
                return Err(Refusal::ComTim);
            }
            objects::set_count(objects, number, count - 1);
        }
    }
    Ok(0)
}
