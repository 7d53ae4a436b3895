pub mod erfc;
