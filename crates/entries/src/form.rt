// The operation that an entry asks for, and whether its fields have the form that refusal 7 asks.
#![tactic(auto, unfolding(model::specs::Entry::operation_of, model::specs::Entry::no_amount, model::specs::Entry::no_value, model::specs::Entry::in_form))]

ghost use Rattle.std.specs.Prelude.{◌≡◌};
ghost use Rattle.model.specs.Entry.{operation_of, no_amount, no_value, arguments_fit, in_form};

use model::numbers::{
    ARGUMENT_LOCK, FORMAT_UNDEFINED, LARGEST_DISABLE, NEVER, NONE, OPERATION_ADJUST_COUNT,
    OPERATION_FACTOR, OPERATION_SET_COUNT, OPERATION_SET_DISABLE, OPERATION_SET_SERVICE,
};
use model::{Entry, Operation};

// The operation of a number, where it has one. An Option, as in the definition: an error of TryFrom would say nothing more.
pub fn operation_of(n: u8) -> Option<Operation>
    ensures { result ≡ operation_of n }
{
    match n {
        OPERATION_FACTOR => Some(Operation::Factor),
        OPERATION_SET_COUNT => Some(Operation::SetCount),
        OPERATION_ADJUST_COUNT => Some(Operation::AdjustCount),
        OPERATION_SET_DISABLE => Some(Operation::SetDisable),
        OPERATION_SET_SERVICE => Some(Operation::SetService),
        _ => None,
    }
}

fn no_amount(e: Entry) -> bool
    ensures { result ≡ no_amount e }
{
    e.amount == 0
}

fn no_value(e: Entry) -> bool
    ensures { result ≡ no_value e }
{
    octets::same_bytes(&e.value, &[0; 8])
}

// The argument, the amount and the value are those of the operation.
pub fn arguments_fit(o: Option<Operation>, e: Entry) -> bool
    ensures { result ≡ arguments_fit o e }
{
    match o {
        Some(Operation::Factor) => (e.argument != FORMAT_UNDEFINED) & no_amount(e),
        Some(Operation::SetCount | Operation::AdjustCount) => (e.argument == 0) & no_value(e),
        Some(Operation::SetDisable) => (e.argument <= LARGEST_DISABLE) & no_amount(e) & no_value(e),
        Some(Operation::SetService) => (e.argument <= ARGUMENT_LOCK) & no_amount(e) & no_value(e),
        None => false,
    }
}

// The entry has the form that refusal 7 asks.
pub fn in_form(o: Option<Operation>, e: Entry) -> bool
    ensures { result ≡ in_form o e }
{
    arguments_fit(o, e) & (e.spare == 0) & (e.instance < NONE) & (e.time != NEVER)
}
