//! The commands on master keys: what each does, over any outside of a run, and the text that it prints. They stand
//! beside those of `local_commands`, which are free of ciphers.
//!
//! Begin with `specs/Running.antt`, which says what a run of any of them comes to, and with a command's own file in
//! `specs/Commands/`. [`obey`] does what a command says, with a [`Vault`]. Words, printing and exit statuses are the
//! program's.
#![tactic(auto)]

mod command;
mod key_command;
mod keys_err;
mod laws;
mod obeying;
mod vault;

pub use key_command::KeyCommand;
pub use keys_err::KeysErr;
pub use laws::{
    key_refusals_leave_all_as_it_was, keys_change_the_info_alone, keys_spare_what_they_do_not_use,
    unhindered_keys_go_well,
};
pub use obeying::obey;
pub use vault::Vault;
