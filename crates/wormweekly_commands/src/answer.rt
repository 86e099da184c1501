//! What a command answers of the texts of its files, before anything is written.
ghost use Rattle.std.specs.Prelude.{◌≡◌, ◌≢◌, IfErr, IfOk, IsSome};
ghost use Rattle.metric_kit_commands.specs.Claims.{IsClaimFault};
ghost use Rattle.metric_kit_commands.specs.Certifying.{IsMakeFault};
ghost use Rattle.metric_kit_commands.specs.Declarations.{IsDeclaredFault};
ghost use Rattle.wormweekly_commands.specs.Answers.{IsAnswer, IsAnswerFault, IsNoted, IsPlainAnswer};

use crate::listing::{Listing, listing_of};
use crate::notes::{Notes, notes_of};
use crate::rooms::{Rooms, rooms_of};
use metric_base::Text;
use metric_command_lines::{Request, Task};
use metric_kit_commands::{KitFault, certificate_text, certified_plan};
use metric_parts::Parts;
use std::alloc::Global;

/// What a command answers.
#[derive(Drop)]
pub(crate) enum Answer {
    /// The text of a certificate.
    Certificate(Text),
    /// That a certificate is accepted.
    Accepted,
    /// The streams of a config.
    Streams(Listing),
    /// How often each instrument may be recorded.
    Rooms(Rooms),
    /// What looks like a mistake.
    Notes(Notes),
}

/// The answer of a command to the parts that its files are, or the first fault of them.
pub(crate) fn answer_of(
    alloc: Global,
    task: Task,
    request: &Request,
    parts: &Parts<'_>,
) -> Result<Answer, KitFault>
    requires other { task ≢ Task.Replay }
    requires single { task ≢ Task.Diff }
    requires long { task ≢ Task.Expand }
    requires answer { task ≢ Task.Report }
    requires picture { task ≢ Task.Draw }
    requires queries { task ≢ Task.Queries }
    requires code { task ≢ Task.Bind }
    requires certificate { task ≡ Task.Check → IsSome parts.now.certificate }
    ensures ok { IfOk result (IsAnswer task request.now parts.now) }
    ensures first { IfErr result (λ fault. IsAnswerFault task fault parts.now) }
{
    match task {
        Task::Make => made(alloc, parts),
        Task::Check => checked(alloc, parts),
        Task::Show => listed(alloc, parts),
        Task::Headroom => roomed(alloc, parts),
        Task::Lint => noted(alloc, request, parts),
        Task::Replay
        | Task::Diff
        | Task::Report
        | Task::Expand
        | Task::Draw
        | Task::Queries
        | Task::Bind => unreachable!(),
    }
}

fn made(alloc: Global, parts: &Parts<'_>) -> Result<Answer, KitFault>
    ensures ok { IfOk result (IsPlainAnswer Task.Make parts.now) }
    ensures first { IfErr result (λ fault. IsMakeFault fault parts.now) }
{
    let text = certificate_text(alloc, parts)?;
    Ok(Answer::Certificate(Text::from_string(text)))
}

fn checked(alloc: Global, parts: &Parts<'_>) -> Result<Answer, KitFault>
    requires { IsSome parts.now.certificate }
    ensures ok { IfOk result (IsPlainAnswer Task.Check parts.now) }
    ensures first { IfErr result (λ fault. IsClaimFault fault parts.now) }
{
    let _plan = certified_plan(alloc, parts)?;
    Ok(Answer::Accepted)
}

fn listed(alloc: Global, parts: &Parts<'_>) -> Result<Answer, KitFault>
    ensures ok { IfOk result (IsPlainAnswer Task.Show parts.now) }
    ensures first { IfErr result (λ fault. IsDeclaredFault fault parts.now) }
{
    Ok(Answer::Streams(listing_of(alloc, parts)?))
}

fn roomed(alloc: Global, parts: &Parts<'_>) -> Result<Answer, KitFault>
    ensures ok { IfOk result (IsPlainAnswer Task.Headroom parts.now) }
    ensures first { IfErr result (λ fault. IsDeclaredFault fault parts.now) }
{
    Ok(Answer::Rooms(rooms_of(alloc, parts)?))
}

fn noted(alloc: Global, request: &Request, parts: &Parts<'_>) -> Result<Answer, KitFault>
    ensures ok { IfOk result (IsNoted request.now parts.now) }
    ensures first { IfErr result (λ fault. IsDeclaredFault fault parts.now) }
{
    Ok(Answer::Notes(notes_of(alloc, request, parts)?))
}
