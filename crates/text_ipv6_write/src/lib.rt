// IPv6 networks written as text, in the form that RFC 5952 recommends.
mod groups;
pub mod ipv6;
mod joined;
mod runs;
