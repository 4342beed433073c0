//! Files byte by byte, and each fault at its place.
mod files;
mod net;
mod server;
