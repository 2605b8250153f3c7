//! Worked cases of what sessions do, over targets and keepers in memory: [`upload::upload_waiting`],
//! [`download::apply_listed`] and [`upload::delete_listed`], and [`sync_run::upgrade_on`], alone, broken off at
//! each call, and beside what other clients do.
#![tactic(auto)]

#[cfg(test)]
mod broken;
#[cfg(test)]
mod deletions_of_rows;
#[cfg(test)]
mod downloads_broken;
#[cfg(test)]
mod downloads_of_bytes;
#[cfg(test)]
mod downloads_of_folders;
#[cfg(test)]
mod downloads_of_moments;
#[cfg(test)]
mod downloads_of_nothing;
#[cfg(test)]
mod downloads_of_rows;
#[cfg(test)]
mod overfull;
#[cfg(test)]
mod texts;
#[cfg(test)]
mod turns;
#[cfg(test)]
mod upgrade_answers;
#[cfg(test)]
mod upgraded;
#[cfg(test)]
mod upgrades_beside;
#[cfg(test)]
mod upgrades_redone;
#[cfg(test)]
mod uploads_beside;
#[cfg(test)]
mod uploads_broken;
#[cfg(test)]
mod uploads_of_bytes;
#[cfg(test)]
mod uploads_of_folders;
#[cfg(test)]
mod uploads_of_rows;
