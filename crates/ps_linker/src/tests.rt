//! The command through `run`: statuses, texts, and what becomes of the files. Each test has its own
//! file names, since all run in one folder.
mod args;
mod faulty;
mod files;
mod inputs;
mod libraries;
mod linking;
mod mapping;
mod memory;
mod outcome;
mod printing;
mod texts;
mod wanted;
mod writers;
