//! The laws of lookups: those of `layout_laws`, whose head lists what a caller can test of their premises.

pub use layout_laws::{
    breaks, length_laws, part_laws, rule_length_laws, rule_part_laws, skipping_laws,
};
