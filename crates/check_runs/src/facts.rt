//! Workloads that are drawn, hostile ones, which are run on threads by `tide_run::run`, and whose texts are judged by
//! three facts that hold in whatever order the mutators made their calls.
//!
//! It knows no program: `checks` calls it for the lines of its input that begin with `facts` or `counts`. A workload is
//! drawn from two files (`drawn.rt`). The facts have to hold of its text (`facts.rt`), and of none that is doctored
//! (`doctored.rt`).

mod drawn;
mod held;
// these stand on those listed before
mod facts;
// these stand on those listed before
mod doctored;
// these stand on those listed before
mod counts;
// these stand on those listed before
mod runs;

pub use runs::check_facts;
