// What is proved of the interface's definitions: each function promises one statement of interface/specs and does nothing, so that its proof is the statement's.
#![tactic(auto)]

ghost use Rattle.interface.specs.Consequences.{StaysSound, DamagedExactly, RefusedStays, HypervisorStays, BlocksStay, NothingIsNothing, AnswersFew, AddsNoPermission, RevokesExactly, NothingLost};
ghost use Rattle.interface.specs.Refusals.{CallRefusedExactly, CreationsRefusedExactly, SmCtrlRefusedExactly, LookupRefusedExactly, RevokeRefusedExactly, CensusRefusedExactly, DispatchRefusedExactly, MalformedExactly};
ghost use Rattle.interface.specs.Created.{CreatedExactly};
ghost use Rattle.interface.specs.Deliveries.{DeliversItems, DeliversWords, DeliversRange};
ghost use Rattle.interface.specs.WithoutReasons.{NothingElseChanges};
ghost use Rattle.interface.specs.BootLends.{BootLends};
ghost use Rattle.interface.specs.Translations.{TranslatesExactly};
ghost use Rattle.interface.specs.DamageReport.{DamageNamed};
ghost use Rattle.interface.specs.Demand.{LastRevokeExists, Demand3};
ghost use Rattle.interface.specs.Examples.{WorkedExamples, MessageExample, JournalExample, JournalStops, RangeExample, LayoutExamples};
ghost use Rattle.interface.specs.SmallCases.{SmallCases};
ghost use Rattle.interface.specs.Journal.{PartsInTurn, PiecesInTurn};

// Demand 3: after any events from boot, the census of a live place shows exactly its heirs, and revoking everything below it empties just those.
pub fn demand_3()
    ensures { Demand3 }
{}

// The last REVOKE of demand 3 exists: each place's own descriptor is read as that place.
pub fn last_revoke_exists()
    ensures { LastRevokeExists }
{}

// Every event on sound tables leaves sound tables.
pub fn stays_sound()
    ensures { StaysSound }
{}

// A call or a census answers DAMAGED exactly where the tables are not sound, and after any events from boot none does.
pub fn damaged_exactly()
    ensures { DamagedExactly }
{}

// The damage report names the first rule that is broken, and the lowest record or else the lowest place that breaks it.
pub fn damage_named()
    ensures { DamageNamed }
{}

// A refused event changes no word of tables, block or list.
pub fn refused_stays()
    ensures { RefusedStays }
{}

// No event changes a place of domain 0, whatever the tables are.
pub fn hypervisor_stays()
    ensures { HypervisorStays }
{}

// Boot lends the root two pages, each from domain 0's place of the same selector, whose only heir is the root's place; where the root gives one up, nothing else changes.
pub fn boot_lends()
    ensures { BootLends }
{}

// No call but CALL changes a word of the callee's block, whether it is granted or refused.
pub fn blocks_stay()
    ensures { BlocksStay }
{}

// A selector that holds nothing is reported as nothing, and any other by the largest range around it.
pub fn nothing_is_nothing()
    ensures { NothingIsNothing }
{}

// LOOKUP answers no range of more than 64 selectors, among objects either.
pub fn answers_few()
    ensures { AnswersFew }
{}

// Delegation adds no permission: no call but REVOKE changes a live place, and what a call fills was delegated as it asks, or is what it created.
pub fn adds_no_permission()
    ensures { AddsNoPermission }
{}

// Revocation is exact.
pub fn revokes_exactly()
    ensures { RevokesExactly }
{}

// The check of REVOKE's mask refuses only what would change nothing.
pub fn nothing_lost()
    ensures { NothingLost }
{}

// Each refusal of CALL has exactly its cause, and CALL is granted exactly where none applies.
pub fn call_refused_exactly()
    ensures { CallRefusedExactly }
{}

// Each refusal of a creation has exactly its cause, and it is granted exactly where none applies.
pub fn creations_refused_exactly()
    ensures { CreationsRefusedExactly }
{}

// Each refusal of SM_CTRL has exactly its cause, and otherwise the count is one more or one less.
pub fn sm_ctrl_refused_exactly()
    ensures { SmCtrlRefusedExactly }
{}

// LOOKUP is refused exactly for a malformed descriptor.
pub fn lookup_refused_exactly()
    ensures { LookupRefusedExactly }
{}

// REVOKE is refused exactly for a self word above 1, a malformed descriptor, or a mask without a permission of its space.
pub fn revoke_refused_exactly()
    ensures { RevokeRefusedExactly }
{}

// Each refusal of the census has exactly its cause, and otherwise it counts the descendants.
pub fn census_refused_exactly()
    ensures { CensusRefusedExactly }
{}

// A creation that succeeds leaves its object's words in the lowest free record and a capability for it at the new place, and changes nothing else, except that CREATE_PD may also
// fill places of its new domain, as `delivers_range` states.
pub fn created_exactly()
    ensures { CreatedExactly }
{}

// CALL delivers its items in turn, each on a sound state, at each of its offsets where the delegation is due and nowhere else, and answers how many places that fills.
pub fn delivers_items()
    ensures { DeliversItems }
{}

// CALL gives the receiver each of the 64 words of its block: the sender's counts and untyped words, what each item shows, its kind and the first reason why it is null, and the rest
// as it was.
pub fn delivers_words()
    ensures { DeliversWords }
{}

// The reasons of null items change the received second words and nothing else: no reply, no step, no table, no history, no line of a journal.
pub fn nothing_else_changes()
    ensures { NothingElseChanges }
{}

// CREATE_PD delivers its initial range to the new domain, which was empty, at each offset where the delegation is due and nowhere else.
pub fn delivers_range()
    ensures { DeliversRange }
{}

// Translation is exact: what it shows is where the sender's places came from in the receiver's domain, and it is null exactly where something breaks that.
pub fn translates_exactly()
    ensures { TranslatesExactly }
{}

// On a sound state BAD_HYP is answered exactly for a number that is not built, and BAD_CALLER exactly for a built one and a caller that is no EC number.
pub fn dispatch_refused_exactly()
    ensures { DispatchRefusedExactly }
{}

// A word is read as malformed exactly for its type, order and base.
pub fn malformed_exactly()
    ensures { MalformedExactly }
{}

// The lines of a journal are those of the whole records of a first part of it, and then those of the rest, from the tables and the index after those records.
pub fn parts_in_turn()
    ensures { PartsInTurn }
{}

// In whatever pieces a journal is read, its lines are the same.
pub fn pieces_in_turn()
    ensures { PiecesInTurn }
{}

// Every worked example follows from the definitions.
pub fn worked_examples()
    ensures { WorkedExamples }
{}

// One whole message, computed: its answer, the 64 words that the receiver gets, and the places it fills.
pub fn message_example()
    ensures { MessageExample }
{}

// Each small case of the history, of translation, of why an item is null and of the damage report follows from the definitions.
pub fn small_cases()
    ensures { SmallCases }
{}

// One initial range, computed: the new PD, and what its domain holds.
pub fn range_example()
    ensures { RangeExample }
{}

// The numbers of the layout are the manual's.
pub fn layout_examples()
    ensures { LayoutExamples }
{}

// The lines of the journal's example follow from the definitions.
pub fn journal_example()
    ensures { JournalExample }
{}

// Where the reading of a journal stops, and the lines that tell it, follow from the definitions.
pub fn journal_stops()
    ensures { JournalStops }
{}
