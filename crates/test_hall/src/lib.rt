//! Tests of call_log, hall, job_threads and hall_words: where a log and trails differ, what one seat does
//! and another finds, clients in threads of their own, whose turn it is, jobs in threads, and words.
#![tactic(auto)]

#[cfg(test)]
mod deeds;
#[cfg(test)]
mod differing;
#[cfg(test)]
mod seats;
#[cfg(test)]
mod threads;
#[cfg(test)]
mod turns;
#[cfg(test)]
mod words;
