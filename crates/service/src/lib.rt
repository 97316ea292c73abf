// A hypercall on sound tables: its number is tested before its caller, the caller before the call's own checks, and the tables stay sound.
#![tactic(auto)]

ghost use Rattle.std.specs.Prelude.{◌≡◌, true};
ghost use Rattle.interface.specs.Places.{tables};
ghost use Rattle.interface.specs.Damage.{sound};
ghost use Rattle.capabilities.specs.Callers.{Called};
ghost use Rattle.service.specs.Admission.{number_of, Reads, Admits};
ghost use Rattle.service.specs.Serving.{call_with, Serves};

use interface::numbers;
use layout::ObjectNumber;
use reply::{Refusal, Reply};

// The six words after a hypercall's number and its caller: a call takes as many as it has.
#[derive(Clone, Copy)]
pub struct CallWords {
    pub first: u32,
    pub second: u32,
    pub third: u32,
    pub fourth: u32,
    pub fifth: u32,
    pub sixth: u32,
}

// A hypercall that is built.
#[derive(Clone, Copy)]
enum Hypercall {
    Call,
    CreatePd,
    CreateEc,
    CreateSc,
    CreatePt,
    CreateSm,
    Revoke,
    Lookup,
    SmCtrl,
}

// A number that no built hypercall has.
#[derive(Clone, Copy)]
struct NotBuilt;

impl TryFrom<u32> for Hypercall {
    type Error = NotBuilt;

    ghost try_from_gives = { Reads };

    fn try_from(number: u32) -> Result<Hypercall, NotBuilt> {
        match number {
            numbers::CALL => Ok(Hypercall::Call),
            numbers::CREATE_PD => Ok(Hypercall::CreatePd),
            numbers::CREATE_EC => Ok(Hypercall::CreateEc),
            numbers::CREATE_SC => Ok(Hypercall::CreateSc),
            numbers::CREATE_PT => Ok(Hypercall::CreatePt),
            numbers::CREATE_SM => Ok(Hypercall::CreateSm),
            numbers::REVOKE => Ok(Hypercall::Revoke),
            numbers::LOOKUP => Ok(Hypercall::Lookup),
            numbers::SM_CTRL => Ok(Hypercall::SmCtrl),
            _ => Err(NotBuilt),
        }
    }
}

// A built hypercall with its caller, which is an EC. On sound tables the number is tested before the caller, and the caller before a call's own checks.
fn admit(
    number: u32,
    caller: u32,
    places: &[u32],
    objects: &[u32],
) -> Result<(Hypercall, ObjectNumber), Refusal>
    requires { sound (tables places.now objects.now) ≡ true }
    ensures { Admits places.now objects.now number caller result }
{
    let Ok(hypercall) = Hypercall::try_from(number) else {
        return Err(Refusal::BadHyp);
    };
    let found = ObjectNumber::found(caller).ok_or(Refusal::BadCaller)?;
    if objects::load(objects, found, objects::KIND) != objects::EC {
        return Err(Refusal::BadCaller);
    }
    Ok((hypercall, found))
}

// A hypercall by an EC on sound tables.
// The tables and no struct of both: CALL and REVOKE change the places alone, SM_CTRL the objects alone, and LOOKUP neither.
fn dispatch(
    hypercall: Hypercall,
    caller: ObjectNumber,
    words: CallWords,
    places: &mut [u32],
    objects: &mut [u32],
    source: &[u32],
    target: &mut [u32],
) -> Reply
    requires { Called places.old objects.old caller.0 }
    ensures { Serves (call_with (number_of hypercall) caller.0 words source.now target.old) (tables places.old objects.old)
        (tables places.new objects.new) target.new result }
{
    match hypercall {
        Hypercall::Call => portals::call(caller, words.first, places, objects, source, target),
        Hypercall::CreatePd => creations::create_pd(
            caller,
            words.first,
            words.second,
            words.third,
            places,
            objects,
        ),
        Hypercall::CreateEc => creations::create_ec(
            caller,
            words.first,
            words.second,
            words.third,
            words.fourth,
            places,
            objects,
        ),
        Hypercall::CreateSc => creations::create_sc(
            caller,
            words.first,
            words.second,
            words.third,
            words.fourth,
            places,
            objects,
        ),
        Hypercall::CreatePt => creations::create_pt(
            caller,
            words.first,
            words.second,
            words.third,
            words.fourth,
            words.fifth,
            words.sixth,
            places,
            objects,
        ),
        Hypercall::CreateSm => creations::create_sm(
            caller,
            words.first,
            words.second,
            words.third,
            places,
            objects,
        ),
        Hypercall::Revoke => revocation::revoke(caller, words.first, words.second, places, objects),
        Hypercall::Lookup => lookup::look_up(caller, words.first, places, objects),
        Hypercall::SmCtrl => semaphores::sm_ctrl(
            caller,
            words.first,
            words.second,
            places,
            objects,
        ),
    }
}

// A hypercall on tables that are known to be sound: it does not test them, and they stay sound.
pub fn serve(
    number: u32,
    caller: u32,
    words: CallWords,
    places: &mut [u32],
    objects: &mut [u32],
    source: &[u32],
    target: &mut [u32],
) -> Reply
    requires { sound (tables places.old objects.old) ≡ true }
    ensures serves { Serves (call_with number caller words source.now target.old) (tables places.old objects.old)
        (tables places.new objects.new) target.new result }
    ensures sound_after { sound (tables places.new objects.new) ≡ true }
{
    let (hypercall, ec) = admit(number, caller, places, objects)?;
    dispatch(hypercall, ec, words, places, objects, source, target)
}
