//! Refusals as plain numbers.
ghost use Rattle.std.specs.Prelude.{◌≡◌};
ghost use Rattle.ms_tree.specs.Shape.{shape};
ghost use Rattle.ms_sane.specs.Place.{IsOfTree};
ghost use Rattle.ms_calls.specs.Reasons.{code_of_rule as the_code_of_rule, code_of_fault as the_code_of_fault, code_of_reason as the_code_of_reason};
ghost use Rattle.ms_calls.specs.Reasons.{code_of_member as the_code_of_member, code_of_file as the_code_of_file, file_too_long};
ghost use Rattle.ms_calls.specs.Reasons.{code_of_plan_member as the_code_of_plan_member, code_of_plan_file as the_code_of_plan_file};

use ms_assets::{AssetFault, Member};
use ms_plan::{PlanFault, PlanMember};
use ms_sane::Unfit;
use ms_text::{TextFault, TextTree};
use ms_types::Rule;

/// Why a text or an asset file is refused. `specs/Reasons.antt` numbers the kinds, rules and members.
#[repr(C)]
#[derive(Clone, Copy, Debug, PartialEq, Eq)]
pub struct Reason {
    /// Which refusal it is: 1 to 12 of a text, 13 to 23 of a file or of arrays in its place, 0 where there is none.
    pub kind: u32,
    /// The number of the requirement that is false, or of the file's member, where the refusal names one.
    pub rule: u32,
    /// The byte of the text, or the element of the member, from 0, where the refusal names one.
    pub place: u32,
    /// What the size, the opcodes or the items come to, where the refusal is for these.
    pub number: u64,
}

impl Reason {
    fn of_kind(kind: u32) -> Reason
        ensures { result ≡ record { kind = kind; rule = 0; place = 0; number = 0 } }
    {
        Reason {
            kind,
            rule: 0,
            place: 0,
            number: 0,
        }
    }

    fn at(kind: u32, rule: u32, place: u32) -> Reason
        ensures { result ≡ record { kind = kind; rule = rule; place = place; number = 0 } }
    {
        Reason {
            kind,
            rule,
            place,
            number: 0,
        }
    }

    fn counted(kind: u32, number: u64) -> Reason
        ensures { result ≡ record { kind = kind; rule = 0; place = 0; number = number } }
    {
        Reason {
            kind,
            rule: 0,
            place: 0,
            number,
        }
    }

    /// The refusal of a file that is too long.
    pub fn file_too_long() -> Reason
        ensures { result ≡ file_too_long }
    {
        Reason::of_kind(13)
    }
}

/// The refusal of a text.
pub fn code_of_fault(fault: TextFault) -> Reason
    ensures { result ≡ the_code_of_fault fault }
{
    match fault {
        TextFault::TooLong => Reason::of_kind(1),
        TextFault::Syntax(at) => Reason::at(2, 0, at),
        TextFault::TooDeep(at) => Reason::at(3, 0, at),
        TextFault::Memory => Reason::of_kind(0),
    }
}

/// The refusal of a tree.
pub fn code_of_reason(text: &TextTree<'_>, unfit: Unfit) -> Reason
    requires { IsOfTree (shape text.now.tree) unfit }
    ensures { result ≡ the_code_of_reason text.now.offsets.items unfit }
{
    match unfit {
        Unfit::Rule(at) => Reason::at(4, code_of_rule(at.rule), text.offset(at.node)),
        Unfit::TopNotB => Reason::of_kind(5),
        Unfit::Size(n) => Reason::counted(6, n),
        Unfit::Ops(n) => Reason::counted(7, n),
        Unfit::Items(n) => Reason::counted(8, n),
        Unfit::Malleable(at) => Reason::at(9, code_of_rule(at.rule), text.offset(at.node)),
        Unfit::NoSignature => Reason::of_kind(10),
        Unfit::MixedLocks(node) => Reason::at(11, 0, text.offset(node)),
        Unfit::RepeatedKey(node) => Reason::at(12, 0, text.offset(node)),
    }
}

/// The refusal of an asset file.
pub fn code_of_file(fault: AssetFault) -> Reason
    ensures { result ≡ the_code_of_file fault }
{
    match fault {
        AssetFault::NotJson => Reason::of_kind(14),
        AssetFault::Shape(member) => Reason::at(15, code_of_member(member), 0),
        AssetFault::Number(member) => Reason::at(16, code_of_member(member), 0),
        AssetFault::Hex(member, place) => Reason::at(17, code_of_member(member), place),
        AssetFault::KeyForm(place) => Reason::at(18, 0, place),
        AssetFault::SigLength(place) => Reason::at(19, 0, place),
        AssetFault::PreimageLength(place) => Reason::at(20, 0, place),
        AssetFault::TooMany(member) => Reason::at(21, code_of_member(member), 0),
        AssetFault::RepeatedKey(place) => Reason::at(22, 0, place),
        AssetFault::Memory => Reason::of_kind(0),
    }
}

/// The refusal of what a plan is made by.
pub fn code_of_plan_file(fault: PlanFault) -> Reason
    ensures { result ≡ the_code_of_plan_file fault }
{
    match fault {
        PlanFault::NotJson => Reason::of_kind(14),
        PlanFault::Shape(member) => Reason::at(15, code_of_plan_member(member), 0),
        PlanFault::Number(member) => Reason::at(16, code_of_plan_member(member), 0),
        PlanFault::Hex(member, place) => Reason::at(17, code_of_plan_member(member), place),
        PlanFault::KeyForm(place) => Reason::at(18, 0, place),
        PlanFault::PreimageLength(place) => Reason::at(20, 0, place),
        PlanFault::TooMany(member) => Reason::at(21, code_of_plan_member(member), 0),
        PlanFault::RepeatedKey(place) => Reason::at(22, 0, place),
        PlanFault::Length(place) => Reason::at(23, 0, place),
        PlanFault::Memory => Reason::of_kind(0),
    }
}

fn code_of_plan_member(member: PlanMember) -> u32
    ensures { result ≡ the_code_of_plan_member member }
{
    match member {
        PlanMember::Whole => 0,
        PlanMember::Version => 1,
        PlanMember::Sequence => 2,
        PlanMember::Locktime => 3,
        PlanMember::Preimages => 5,
        PlanMember::Keys => 9,
    }
}

fn code_of_member(member: Member) -> u32
    ensures { result ≡ the_code_of_member member }
{
    match member {
        Member::Whole => 0,
        Member::Version => 1,
        Member::Sequence => 2,
        Member::Locktime => 3,
        Member::Signatures => 4,
        Member::Preimages => 5,
        Member::Script => 6,
        Member::Witness => 7,
        Member::Format => 8,
    }
}

fn code_of_rule(rule: Rule) -> u32
    ensures { result ≡ the_code_of_rule rule }
{
    match rule {
        Rule::OlderRange => 0,
        Rule::AfterRange => 1,
        Rule::AndOrX => 2,
        Rule::AndOrYZ => 3,
        Rule::AndVX => 4,
        Rule::AndVY => 5,
        Rule::AndBX => 6,
        Rule::AndBY => 7,
        Rule::OrBX => 8,
        Rule::OrBZ => 9,
        Rule::OrCX => 10,
        Rule::OrCZ => 11,
        Rule::OrDX => 12,
        Rule::OrDZ => 13,
        Rule::OrIXZ => 14,
        Rule::ThreshRange => 15,
        Rule::ThreshFirst => 16,
        Rule::ThreshOther => 17,
        Rule::MultiRange => 18,
        Rule::WrapA => 19,
        Rule::WrapS => 20,
        Rule::WrapC => 21,
        Rule::WrapD => 22,
        Rule::WrapV => 23,
        Rule::WrapJ => 24,
        Rule::WrapN => 25,
        Rule::AndOrE => 26,
        Rule::AndOrS => 27,
        Rule::OrBE => 28,
        Rule::OrBS => 29,
        Rule::OrCE => 30,
        Rule::OrCS => 31,
        Rule::OrDE => 32,
        Rule::OrDS => 33,
        Rule::OrIS => 34,
        Rule::ThreshE => 35,
        Rule::ThreshS => 36,
    }
}
