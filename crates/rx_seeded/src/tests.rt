mod cipher;
mod server;
