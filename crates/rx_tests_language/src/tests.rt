mod commands;
mod malformed;
