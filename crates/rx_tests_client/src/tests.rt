mod commands;
mod malformed;
mod versions;
