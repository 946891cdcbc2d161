// Rules by their names.

ghost use Rattle.std.specs.Prelude.{◌≡◌};
ghost use Rattle.ipc_journal_text.specs.RuleNames.{rule_named as rule_of_name};

use ipc_call::Rule;

/// All rules.
const RULES: [Rule; 41] = [
    Rule::NotOwner,
    Rule::NeedsResource,
    Rule::NotSameUser,
    Rule::NotOwnUser,
    Rule::NotOwnGroup,
    Rule::NeedsSetgid,
    Rule::TooManyGroups,
    Rule::NoKey,
    Rule::Ended,
    Rule::ClientInUse,
    Rule::PidInUse,
    Rule::BadPid,
    Rule::NoClient,
    Rule::NoProcess,
    Rule::Interrupted,
    Rule::MessageTooLong,
    Rule::TooManyOperations,
    Rule::QueueFull,
    Rule::WouldWait,
    Rule::TimedOut,
    Rule::OwnerBits,
    Rule::GroupBits,
    Rule::OtherBits,
    Rule::ReadOnly,
    Rule::KeyExists,
    Rule::BadId,
    Rule::BadType,
    Rule::TextTooLong,
    Rule::BadSize,
    Rule::BadSem,
    Rule::BadArgument,
    Rule::NoOperations,
    Rule::SemOutOfSet,
    Rule::NotAttached,
    Rule::OutOfSegment,
    Rule::TooManyAttached,
    Rule::NoSlot,
    Rule::ValueRange,
    Rule::UndoRange,
    Rule::NoMessage,
    Rule::Removed,
];

/// The rule of this name.
#[tactic(auto, unfolding(crate::specs::RuleNames::rule_named, crate::specs::RuleNames::all_rules))]
pub(crate) fn rule_named(word: &[u8]) -> Option<Rule>
    ensures { result ≡ rule_of_name word.now }
{
    let has_name = |rule: &Rule| rule.name().as_bytes() == word;
    RULES.iter().copied().find(has_name)
}
