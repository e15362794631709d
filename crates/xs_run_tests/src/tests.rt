mod run;
mod script;
mod talk;
