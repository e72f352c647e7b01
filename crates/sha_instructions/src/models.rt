//! The SHA instructions, as the manuals of the processors describe them: Intel 64 and IA-32 Architectures Software
//! Developer's Manual, volume 2, and Arm Architecture Reference Manual for A-profile. Lane 0 of a vector has its lowest
//! bits.

pub mod sha_1;
pub mod sha_256;
pub mod sha_512;
