//! The lines of files that are refused.
ghost use Rattle.std.specs.Prelude.{◌≡◌, ◌≢◌, IfOk};
ghost use Rattle.std.specs.String.{string_bytes};
ghost use Rattle.def_plan.specs.Names.{plan_member_name as the_plan_member_name};
ghost use Rattle.def_answer.specs.Files.{file_line as the_file_line};
ghost use Rattle.def_answer.specs.Plan.{plan_file_line as the_plan_file_line};

use def_plan::{PlanFault, PlanMember};
use ms_assets::{AssetFault, member_name};
use std::alloc::{AllocError, Global};

/// The line of the refusal of an asset file or a run file. Its `Memory` has no line: it is answered as want of
/// memory. `AllocError` comes only where memory is wanting.
pub fn file_line(alloc: Global, fault: AssetFault) -> Result<String, AllocError>
    ensures line { IfOk result (λ line. string_bytes line ≡ the_file_line fault) }
    ensures known { IfOk result (λ line. fault ≢ AssetFault.Memory) }
{
    match fault {
        AssetFault::NotJson => String::from_str(alloc, "refused file NotJson\n"),
        AssetFault::Shape(member) => {
            let name = member_name(member);
            format!(in alloc; "refused file Shape {name}\n")
        }
        AssetFault::Number(member) => {
            let name = member_name(member);
            format!(in alloc; "refused file Number {name}\n")
        }
        AssetFault::Hex(member, place) => {
            let name = member_name(member);
            format!(in alloc; "refused file Hex {name} {place}\n")
        }
        AssetFault::KeyForm(place) => format!(in alloc; "refused file KeyForm {place}\n"),
        AssetFault::SigLength(place) => format!(in alloc; "refused file SigLength {place}\n"),
        AssetFault::PreimageLength(place) => {
            format!(in alloc; "refused file PreimageLength {place}\n")
        }
        AssetFault::TooMany(member) => {
            let name = member_name(member);
            format!(in alloc; "refused file TooMany {name}\n")
        }
        AssetFault::RepeatedKey(place) => format!(in alloc; "refused file RepeatedKey {place}\n"),
        AssetFault::Memory => Err(AllocError),
    }
}

/// The line of the refusal of a plan file. Its `Memory` has no line: it is answered as want of memory. `AllocError`
/// comes only where memory is wanting.
pub fn plan_file_line(alloc: Global, fault: PlanFault) -> Result<String, AllocError>
    ensures line { IfOk result (λ line. string_bytes line ≡ the_plan_file_line fault) }
    ensures known { IfOk result (λ line. fault ≢ PlanFault.Memory) }
{
    match fault {
        PlanFault::NotJson => String::from_str(alloc, "refused file NotJson\n"),
        PlanFault::Shape(member) => {
            let name = plan_member_name(member);
            format!(in alloc; "refused file Shape {name}\n")
        }
        PlanFault::Number(member) => {
            let name = plan_member_name(member);
            format!(in alloc; "refused file Number {name}\n")
        }
        PlanFault::Hex(member, place) => {
            let name = plan_member_name(member);
            format!(in alloc; "refused file Hex {name} {place}\n")
        }
        PlanFault::KeyForm(place) => format!(in alloc; "refused file KeyForm {place}\n"),
        PlanFault::Length(place) => format!(in alloc; "refused file Length {place}\n"),
        PlanFault::PreimageLength(place) => {
            format!(in alloc; "refused file PreimageLength {place}\n")
        }
        PlanFault::TooMany(member) => {
            let name = plan_member_name(member);
            format!(in alloc; "refused file TooMany {name}\n")
        }
        PlanFault::RepeatedKey(place) => format!(in alloc; "refused file RepeatedKey {place}\n"),
        PlanFault::Memory => Err(AllocError),
    }
}

/// The name of a member in a plan file, as reports print it too. The file as a whole is `file`. Takes no memory.
fn plan_member_name(member: PlanMember) -> &'static str
    ensures { result.now ≡ the_plan_member_name member }
{
    match member {
        PlanMember::Whole => "file",
        PlanMember::Version => "version",
        PlanMember::Sequence => "sequence",
        PlanMember::Locktime => "locktime",
        PlanMember::Keys => "keys",
        PlanMember::Preimages => "preimages",
    }
}
