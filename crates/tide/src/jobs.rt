//! `Job`: a member that is to be taken by its thread, and what that answers.
ghost use Rattle.std.specs.Prelude.{◌≡◌, ◌≤◌, All, IfOk, IsSome, None, Some, [], map, vec_capacity, vec_len};
ghost use Rattle.tide.specs.Hosts.{HasActed, HasMember};

use std::alloc::Global;
use tide_server::{Member, Memory};

/// A member that is to be taken, and what its thread answered.
#[derive(Drop)]
pub(crate) struct Job<T> {
    pub(crate) member: Option<Member>,
    pub(crate) answer: Option<T>,
}

/// A job for each member.
pub(crate) fn jobs_for<T: Drop>(alloc: Global, members: Vec<Member>) -> Result<Vec<Job<T>>, Memory>
    ensures { IfOk result (λ jobs. jobs.items
        ≡ map (λ member. record { member = Some member; answer = None }) members.items) }
{
    let mut jobs = Vec::with_capacity(alloc, members.len())?;
    for member in members {
        jobs.push(Job {
            member: Some(member),
            answer: None,
        })?;
    }
    Ok(jobs)
}

/// The member of a job acts, and its answer is left there.
pub(crate) fn act_on<T: Drop, P: Fn(Member) -> T>(job: &mut Job<T>, act: &P)
    requires may { HasMember (P.pre act.now) job.old }
    ensures { HasActed (P.post act.now) job.old job.new }
{
    let Some(member) = job.member.take() else {
        unreachable!()
    };
    job.answer = Some(act(member));
}

/// The answers that were left in the jobs, in their order, in a list that has room for them.
pub(crate) fn answers_of<T: Drop>(mut answers: Vec<T>, jobs: Vec<Job<T>>) -> Vec<T>
    requires none { answers.items ≡ [] }
    requires room { vec_len jobs ≤ vec_capacity answers }
    requires each { All (λ job. IsSome job.answer) jobs.items }
    ensures { map (λ answer. Some answer) result.items ≡ map (λ job. job.answer) jobs.items }
{
    for job in jobs {
        let Job { answer, .. } = job;
        let Some(answer) = answer else { unreachable!() };
        answers.push_reserved(answer);
    }
    answers
}
