//! The codes of rules.

ghost use Rattle.std.specs.Prelude.{◌≡◌};
ghost use Rattle.ipc_abi.specs.Rules.{code_of_rule};

use ipc_call::Rule;

/// The code of a rule. 0 is the code of none.
pub fn rule_code(rule: Rule) -> u32
    ensures { result ≡ code_of_rule rule }
{
    match rule {
        Rule::NotOwner => 1,
        Rule::NeedsResource => 2,
        Rule::NotSameUser => 3,
        Rule::NotOwnUser => 4,
        Rule::NotOwnGroup => 5,
        Rule::NeedsSetgid => 6,
        Rule::TooManyGroups => 7,
        Rule::NoKey => 8,
        Rule::Ended => 9,
        Rule::NoProcess => 10,
        Rule::Interrupted => 11,
        Rule::MessageTooLong => 12,
        Rule::TooManyOperations => 13,
        Rule::QueueFull => 14,
        Rule::WouldWait => 15,
        Rule::TimedOut => 16,
        Rule::OwnerBits => 17,
        Rule::GroupBits => 18,
        Rule::OtherBits => 19,
        Rule::ReadOnly => 20,
        Rule::KeyExists => 21,
        Rule::BadId => 22,
        Rule::BadType => 23,
        Rule::TextTooLong => 24,
        Rule::BadSize => 25,
        Rule::BadSem => 26,
        Rule::BadArgument => 27,
        Rule::NoOperations => 28,
        Rule::SemOutOfSet => 29,
        Rule::NotAttached => 30,
        Rule::OutOfSegment => 31,
        Rule::TooManyAttached => 32,
        Rule::NoSlot => 33,
        Rule::ValueRange => 34,
        Rule::UndoRange => 35,
        Rule::NoMessage => 36,
        Rule::Removed => 37,
        Rule::ClientInUse => 38,
        Rule::PidInUse => 39,
        Rule::BadPid => 40,
        Rule::NoClient => 41,
    }
}
