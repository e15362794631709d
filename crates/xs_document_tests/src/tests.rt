mod chars;
mod io;
mod lr;
mod parse_table;
mod turn;
