//! Tests of sequence forms, of verdicts and of best responses (here called best answers), of fractions, paths of linear programs and exact solutions, of
//! sources and sinks, and of the lines of limits, through the public calls of `gs_seq`, `gs_best`, `gs_raw`, `gs_frac`, `gs_solve`, `gs_simplex`, `gs_io` and
//! `gs_reply`.
#![tactic(auto)]

#[cfg(test)]
mod elimination;
#[cfg(test)]
mod ends;
#[cfg(test)]
mod forms;
#[cfg(test)]
mod fractions;
#[cfg(test)]
mod leduc;
#[cfg(test)]
mod limits;
#[cfg(test)]
mod openings;
#[cfg(test)]
mod path_cases;
#[cfg(test)]
mod paths;
#[cfg(test)]
mod programs;
#[cfg(test)]
mod raw;
#[cfg(test)]
mod rows;
#[cfg(test)]
mod stops;
#[cfg(test)]
mod verdicts;
