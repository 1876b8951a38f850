mod descriptions;
mod fault_order;
mod faults_of_fields;
mod faults_of_parts;
mod many_fields;
mod nesting;
mod places;
mod values;

use evp_format::{LayoutFault, read_description};
use std::alloc::Global;

// Little endian, pointers of 4 bytes, one type `p` of 4 bytes with `x integer` of 4 bytes at 0.
const SMALL: &[u8] = b"NDF1\0\x04\0\x01\
        \x01p\0\0\0\x04\0\x01\
        \x01x\x07integer\0\0\0\x04\0\0\0\0";

// Two types, with an array inside the record, a counted one, nested records and a string.
const MIXED: &[u8] = b"NDF1\0\x04\0\x02\
        \x01e\0\0\0\x08\0\x03\
        \x01k\x07char[3]\0\0\0\x01\0\0\0\0\
        \x01n\x10unsigned integer\0\0\0\x02\0\0\0\x06\
        \x01b\x07boolean\0\0\0\x01\0\0\0\x03\
        \x01r\0\0\0(\0\x05\
        \x01m\x0benumeration\0\0\0\x02\0\0\0&\
        \x01e\x04e[2]\0\0\0\x08\0\0\0\0\
        \x01c\x04e[n]\0\0\0\x08\0\0\0\x10\
        \x01n\x07integer\0\0\0\x08\0\0\0\x18\
        \x01s\x06string\0\0\0\x04\0\0\0 ";

// The first fault of a description.
fn first_fault(alloc: Global, bytes: &[u8]) -> Option<LayoutFault> {
    read_description(alloc, bytes).err()
}
