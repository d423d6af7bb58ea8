//! Tests of the crates below the program, one by one, and of commands: of what no contract says and no case shows, as that
//! memory is found and that threads meet, and of the hash as it is compiled. Each expected value is published, counted by hand,
//! or of an independent program; but files by several workers are compared with that by one worker.
#![tactic(auto)]

#[cfg(test)]
mod byte_files;
#[cfg(test)]
mod chunks;
#[cfg(test)]
mod collecting;
#[cfg(test)]
mod commands;
#[cfg(test)]
mod devices;
#[cfg(test)]
mod draws;
#[cfg(test)]
mod files;
#[cfg(test)]
mod gathering;
#[cfg(test)]
mod hashes;
#[cfg(test)]
mod meeting_stores;
#[cfg(test)]
mod meetings;
#[cfg(test)]
mod overlaps;
#[cfg(test)]
mod side_by_side;
#[cfg(test)]
mod stand_ins;
#[cfg(test)]
mod streams;
#[cfg(test)]
mod windows;
