//! Tests of the small types, of targets in memory and over folders of the system, and of the page of
//! changes, over their public calls alone. Of folders a spy notes what the system is asked for, and says
//! how much of a file it hands out.
#![tactic(auto)]

#[cfg(test)]
mod asking;
#[cfg(test)]
mod calls;
#[cfg(test)]
mod clocks;
#[cfg(test)]
mod contents;
#[cfg(test)]
mod folder;
#[cfg(test)]
mod jobs;
#[cfg(test)]
mod lists;
#[cfg(test)]
mod names;
#[cfg(test)]
mod order;
#[cfg(test)]
mod pages;
#[cfg(test)]
mod past;
#[cfg(test)]
mod scene;
#[cfg(test)]
mod scenes;
#[cfg(test)]
mod spy;
#[cfg(test)]
mod step;
#[cfg(test)]
mod streams;
#[cfg(test)]
mod targets;
#[cfg(test)]
mod texts;
