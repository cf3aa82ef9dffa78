//! The program's test rows.

/// A row is KIND, the exit status, the input and the output, separated by ` | `.
///
/// In the input and the output, `\n` is a line feed, `\t` a tab, `\r` a carriage return and `\\` a
/// backslash. Empty lines and lines that begin with `#` are no rows.
pub(crate) const ROWS: &str = r#"
# Values (RFC 8949, section 3): digits of either case, white space, indefinite lengths, heads that are longer than need be.
value | 0 | a20126180126 | a201260126\n
value | 0 | A2 01\t26\r\n18 01 26\n | a201260126\n
value | 0 | 5f41014102ff | 420102\n
value | 0 | 5fff | 40\n
value | 0 | 9fff | 80\n
value | 0 | bf0102ff | a10102\n
value | 0 | d81240 | d240\n
value | 0 | c2410a | c2410a\n
value | 0 | fa3fc00000 | fa3fc00000\n
value | 0 | FA3FC00000 | fa3fc00000\n
value | 0 | f97e01 | f97e01\n
value | 0 | 1b0000000000000017 | 17\n
value | 0 | 1818 | 1818\n
value | 0 | 9b0000000000000000 | 80\n

# Refused: values that end too early; what is no CBOR, with the offset of the fault; simple values that the library doesn't
# hold (RFC 8949, section 3.3); bytes behind a value; input that isn't hexadecimal.
value | 1 | 8400 | error: decode CBOR failure: Io(EndOfFile)\n
value | 1 | 82ff | error: decode CBOR failure: Io(EndOfFile)\n
value | 1 | 9f01 | error: decode CBOR failure: Io(EndOfFile)\n
value | 1 | c1 | error: decode CBOR failure: Io(EndOfFile)\n
value | 1 | f8 | error: decode CBOR failure: Io(EndOfFile)\n
value | 1 | 9bffffffffffffffff | error: decode CBOR failure: Io(EndOfFile)\n
value | 1 | 5bffffffffffffffff | error: decode CBOR failure: Io(EndOfFile)\n
value | 1 | 7bffffffffffffffff | error: decode CBOR failure: Io(EndOfFile)\n
value | 1 | bbffffffffffffffff | error: decode CBOR failure: Io(EndOfFile)\n
value | 1 | bb80000000000000010000 | error: decode CBOR failure: Io(EndOfFile)\n
value | 1 |  | error: decode CBOR failure: Io(EndOfFile)\n
value | 1 |  \n | error: decode CBOR failure: Io(EndOfFile)\n
value | 1 | 61ff | error: decode CBOR failure: Syntax(0)\n
value | 1 | 1f | error: decode CBOR failure: Syntax(0)\n
value | 1 | df | error: decode CBOR failure: Syntax(0)\n
value | 1 | fc | error: decode CBOR failure: Syntax(0)\n
value | 1 | f818 | error: decode CBOR failure: Syntax(0)\n
value | 1 | ff | error: decode CBOR failure: Syntax(0)\n
value | 1 | 5f6161ff | error: decode CBOR failure: Syntax(1)\n
value | 1 | 5f5fffff | error: decode CBOR failure: Syntax(1)\n
value | 1 | 7f61c361a9ff | error: decode CBOR failure: Syntax(1)\n
value | 1 | bf01ff | error: decode CBOR failure: Syntax(2)\n
value | 1 | 8201ff | error: decode CBOR failure: Syntax(2)\n
value | 1 | f7 | error: decode CBOR failure: Semantic(Some(0), "unsupported simple value")\n
value | 1 | f820 | error: decode CBOR failure: Semantic(Some(0), "unsupported simple value")\n
value | 1 | 0202 | error: extraneous data in CBOR input\n
value | 1 | zz | error: input is not hexadecimal\n
value | 1 | 0 | error: input is not hexadecimal\n
value | 1 | 020 | error: input is not hexadecimal\n
value | 1 | 0x02 | error: input is not hexadecimal\n

# Messages with one signature (RFC 8152, section 4.2), plain and under tag 18. Behind `tbs` is what is signed (section 4.4).
sign1 | 0 | 8440a0f640 | 8440a0f640\ntbs 846a5369676e617475726531404040\n
sign1 | 0 | 9f5fffbffff640ff | 8440a0f640\ntbs 846a5369676e617475726531404040\n
sign1 | 0 | 8444a1180126a0f640 | 8444a1180126a0f640\ntbs 846a5369676e61747572653144a11801264040\n
sign1 | 0 | 8441a0a0f640 | 8441a0a0f640\ntbs 846a5369676e61747572653141a04040\n
sign1 | 0 | 8440a041aa40 | 8440a041aa40\ntbs 846a5369676e617475726531404041aa\n
sign1 | 0 | d2 84 40 A0 F6 40\n | d28440a0f640\ntbs 846a5369676e617475726531404040\n
sign1 | 0 | d8129f5fffbffff640ff | d28440a0f640\ntbs 846a5369676e617475726531404040\n
sign1 | 1 | 8442a000a0f640 | error: extraneous data in CBOR input\n
sign1 | 1 | 8440a0f64000 | error: extraneous data in CBOR input\n
sign1 | 1 | d28440a0f64000 | error: extraneous data in CBOR input\n
sign1 | 1 | d18440a0f640 | error: got tag, expected other tag\n
sign1 | 1 | d2d28440a0f640 | error: got tag, expected array\n
sign1 | 1 | 8446a22000380000a0f640 | error: duplicate map key\n
sign1 | 1 | 83000000 | error: got array, expected array with 4 items\n
sign1 | 1 | 80 | error: got array, expected array with 4 items\n
sign1 | 1 | 8400000000 | error: got int, expected bstr\n
sign1 | 1 | 8400000040 | error: got int, expected bstr or nil\n
sign1 | 1 | 01 | error: got int, expected array\n
sign1 | 1 |  | error: decode CBOR failure: Io(EndOfFile)\n
sign1 | 1 | d2 | error: decode CBOR failure: Io(EndOfFile)\n
sign1 | 1 | 8440a0f6 | error: decode CBOR failure: Io(EndOfFile)\n
sign1 | 1 | 8440a0ff40 | error: decode CBOR failure: Syntax(3)\n
sign1 | 1 | 8441ffa0f640 | error: decode CBOR failure: Syntax(0)\n
sign1 | 1 | zz | error: input is not hexadecimal\n

# Messages with any number of signatures (RFC 8152, section 4.1), plain and under tag 98.
sign | 0 | 8440a0f680 | 8440a0f680\n
sign | 0 | 8440a0f6818340a040 | 8440a0f6818340a040\n
sign | 0 | 9f5fffbffff69f9f40a040ffffff | 8440a0f6818340a040\n
sign | 0 | 8440a041aa828340a041018340a04102 | 8440a041aa828340a041018340a04102\n
sign | 0 | d8628440a0f680 | d8628440a0f680\n
sign | 1 | 8440a0f68101 | error: got non-signature, expected map for COSE_Signature\n
sign | 1 | 8440a0f6818340a001 | error: got non-signature, expected map for COSE_Signature\n
sign | 1 | 8440a0f6828340a0408340a101014040 | error: extraneous data in CBOR input\n
sign | 1 | 8440a0f6828340a0408341a1a040 | error: got non-signature, expected map for COSE_Signature\n
sign | 1 | 8440a0f640 | error: got bstr, expected array\n
sign | 1 | 8440a00180 | error: got int, expected bstr or nil\n
sign | 1 | 8440a0018101 | error: got non-signature, expected map for COSE_Signature\n
sign | 1 | 8340a080 | error: got array, expected array with 4 items\n
sign | 1 | d28440a0f680 | error: got tag, expected other tag\n
sign | 1 | 8440a0f6818340a0 | error: decode CBOR failure: Io(EndOfFile)\n

# Messages with a MAC, for receivers that know the key (RFC 8152, section 6.2), plain and under tag 17.
mac0 | 0 | 8440a0f640 | 8440a0f640\n
mac0 | 0 | 9f5fffbffff640ff | 8440a0f640\n
mac0 | 0 | 8444a1180126a041aa4101 | 8444a1180126a041aa4101\n
mac0 | 0 | d1 84 40 A0 F6 40\n | d18440a0f640\n
mac0 | 0 | d8119f5fffbffff640ff | d18440a0f640\n
mac0 | 0 | d18440a0f640 | d18440a0f640\n
mac0 | 1 | 8440a00040 | error: got int, expected bstr\n
mac0 | 1 | 8440a0f6f6 | error: got nul, expected bstr\n
mac0 | 1 | 8340a0f6 | error: got array, expected array with 4 items\n
mac0 | 1 | d18340a0f6 | error: got array, expected array with 4 items\n
mac0 | 1 | d28440a0f640 | error: got tag, expected other tag\n
mac0 | 1 | d1d18440a0f640 | error: got tag, expected array\n
mac0 | 1 | 8442a000a0f640 | error: extraneous data in CBOR input\n
mac0 | 1 | d18440a0f64000 | error: extraneous data in CBOR input\n
mac0 | 1 | d1 | error: decode CBOR failure: Io(EndOfFile)\n

# Messages with a MAC and recipients (RFC 8152, section 6.1), plain and under tag 97.
mac | 0 | 8540a0f64080 | 8540a0f64080\n
mac | 0 | d8618540a0f64080 | d8618540a0f64080\n
mac | 1 | 8440a0f640 | error: got array, expected array with 5 items\n
mac | 1 | d8608540a0f64080 | error: got tag, expected other tag\n

# Encrypted messages, for receivers that know the key (RFC 8152, section 5.2), plain and under tag 16.
encrypt0 | 0 | 8340a0f6 | 8340a0f6\n
encrypt0 | 0 | 9f5fffbffff6ff | 8340a0f6\n
encrypt0 | 0 | 8344a1180126a041aa | 8344a1180126a041aa\n
encrypt0 | 0 | d0 83 40 A0 F6\n | d08340a0f6\n
encrypt0 | 0 | d8109f5fffbffff6ff | d08340a0f6\n
encrypt0 | 0 | d08340a0f6 | d08340a0f6\n
encrypt0 | 1 | 8340a000 | error: got int, expected bstr\n
encrypt0 | 1 | 8440a0f640 | error: got array, expected array with 3 items\n
encrypt0 | 1 | d08440a0f640 | error: got array, expected array with 3 items\n
encrypt0 | 1 | d18340a0f6 | error: got tag, expected other tag\n
encrypt0 | 1 | d0d08340a0f6 | error: got tag, expected array\n
encrypt0 | 1 | 8342a000a0f6 | error: extraneous data in CBOR input\n
encrypt0 | 1 | d08340a0f600 | error: extraneous data in CBOR input\n
encrypt0 | 1 | d0 | error: decode CBOR failure: Io(EndOfFile)\n

# Encrypted messages with recipients (RFC 8152, section 5.1), plain and under tag 96.
encrypt | 0 | 8440a0f680 | 8440a0f680\n
encrypt | 0 | d8608440a0f680 | d8608440a0f680\n
encrypt | 1 | 8340a0f6 | error: got array, expected array with 4 items\n
encrypt | 1 | d8618440a0f680 | error: got tag, expected other tag\n

# Countersignatures of version 2 (RFC 9338, section 3.1), plain and under tag 19.
countersignature | 0 | 8340a040 | 8340a040\n
countersignature | 0 | 9f5fffbfff40ff | 8340a040\n
countersignature | 0 | 8344a1180126a04107 | 8344a1180126a04107\n
countersignature | 0 | 8340a30c400b818340a040078340a04041aa | 8340a3078340a0400b8340a0400c4041aa\n
countersignature | 0 | d3 83 40 A0 40\n | d38340a040\n
countersignature | 0 | d8139f5fffbfff40ff | d38340a040\n
countersignature | 0 | d38340a040 | d38340a040\n
countersignature | 1 | 8340a0f6 | error: got nul, expected bstr\n
countersignature | 1 | 8340a10c0140 | error: got int, expected bstr\n
countersignature | 1 | 8440a04040 | error: got array, expected array with 3 items\n
countersignature | 1 | d38440a04040 | error: got array, expected array with 3 items\n
countersignature | 1 | d28340a040 | error: got tag, expected other tag\n
countersignature | 1 | d3d38340a040 | error: got tag, expected array\n
countersignature | 1 | 8342a000a040 | error: extraneous data in CBOR input\n
countersignature | 1 | d38340a04000 | error: extraneous data in CBOR input\n
countersignature | 1 | d3 | error: decode CBOR failure: Io(EndOfFile)\n

# Keys (RFC 8152, section 7).
key | 0 | a200000104 | a201040000\n
key | 0 | a2010404820a01 | a201040482010a\n
key | 0 | a10101 | a10101\n
key | 1 | a0 | error: got no kty label, expected mandatory kty label\n
key | 1 | a10108 | error: expected recognized IANA value\n

# Sets of keys (RFC 8152, section 7).
keyset | 0 | 9fa10101ff | 81a10101\n
keyset | 1 | a0 | error: got map, expected array\n

# Claims of web tokens (RFC 8392, section 3).
claims | 0 | a0 | a0\n
claims | 0 | a104fb3ff8000000000000 | a104fb3ff8000000000000\n
claims | 0 | bf616100016161ff | a2016161616100\n
claims | 0 | a1041903e8 | a1041903e8\n
claims | 1 | 8101 | error: got array, expected map\n
claims | 1 | d83da0 | error: got tag, expected map\n
claims | 1 | a207400740 | error: duplicate map key\n

# Contexts of a key derivation (RFC 8152, section 11.2).
kdf | 0 | 840083f6f6f683f6f6f6820040 | 840083f6f6f683f6f6f6820040\n
kdf | 0 | 9f009ff6f6f6ff9ff6f6f6ff9f0040ff40ff | 850083f6f6f683f6f6f682004040\n
kdf | 0 | 870083f6f6f683f6f6f6820040430102034202034103 | 870083f6f6f683f6f6f6820040430102034202034103\n
kdf | 0 | 840183f6f6f683f6f6f6820040 | 840183f6f6f683f6f6f6820040\n
kdf | 1 | 830083f6f6f683f6f6f6 | error: got array, expected array with at least 4 items\n
kdf | 1 | 840883f6f6f683f6f6f6820040 | error: expected value in IANA or private use range\n
kdf | 1 | 840183401b8000000000000000f683f6f6f6820040 | error: out of range integer value\n
"#;
