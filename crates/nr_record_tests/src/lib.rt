//! Tests of record marks (`nr_record`), and of connections over TCP with record marks (`nr_record_host`).
#![tactic(auto)]

#[cfg(test)]
mod compare;
#[cfg(test)]
mod pieces;
#[cfg(test)]
mod record_ends;
#[cfg(test)]
mod records;
