//! The version of the program, and how it was built.

/// The version, as `rheap --version` prints it behind the program's name, and in a line of its own
/// how the program was built. The toolchain builds only what it has proved. Where `./rheap` builds
/// without proof, it puts another line into its copy of this file.
pub const VERSION: &str = "0.1.0\nproved here";
