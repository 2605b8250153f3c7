//! Tests of keepers over records, in memory and in an SQLite file, by their public calls alone. A
//! file stands in a folder of its own among the temporary ones.
#![tactic(auto)]

#[cfg(test)]
mod agreeing;
#[cfg(test)]
mod blobs;
#[cfg(test)]
mod changed;
#[cfg(test)]
mod changes;
#[cfg(test)]
mod drawn;
#[cfg(test)]
mod faults;
#[cfg(test)]
mod file;
#[cfg(test)]
mod made;
#[cfg(test)]
mod numbers;
mod recorder;
#[cfg(test)]
mod said;
#[cfg(test)]
mod thing;
#[cfg(test)]
mod trouble;
#[cfg(test)]
mod work;
#[cfg(test)]
mod writes;
