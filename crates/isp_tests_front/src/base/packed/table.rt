//! Bytes and what they hold, by hand.

/// A line each: the types of the parameters, `[]` after that of an array; the bytes; and what they hold, the value as the
/// result, or the fault.
pub(super) const TABLE: &str = "bool;0 0 0 0 0 0 0 0;{\"arrays\":{},\"result\":false}
bool;1 0 0 0 0 0 0 0;{\"arrays\":{},\"result\":true}
bool;2 0 0 0 0 0 0 0;element 0 of parameter 0 is no value of its type
bool;1 0 0 0 0 0 0 1;element 0 of parameter 0 is no value of its type
int8;128 0 0 0 0 0 0 0;{\"arrays\":{},\"result\":-128}
int8;127 0 0 0 0 0 0 0;{\"arrays\":{},\"result\":127}
int8;0 1 0 0 0 0 0 0;element 0 of parameter 0 is no value of its type
uint8;255 0 0 0 0 0 0 0;{\"arrays\":{},\"result\":255}
uint8;0 1 0 0 0 0 0 0;element 0 of parameter 0 is no value of its type
int16;0 128 0 0 0 0 0 0;{\"arrays\":{},\"result\":-32768}
int16;255 127 0 0 0 0 0 0;{\"arrays\":{},\"result\":32767}
int16;0 0 1 0 0 0 0 0;element 0 of parameter 0 is no value of its type
uint16;255 255 0 0 0 0 0 0;{\"arrays\":{},\"result\":65535}
uint16;0 0 1 0 0 0 0 0;element 0 of parameter 0 is no value of its type
int32;0 0 0 128 0 0 0 0;{\"arrays\":{},\"result\":-2147483648}
int32;0 0 0 0 1 0 0 0;element 0 of parameter 0 is no value of its type
uint32;255 255 255 255 0 0 0 0;{\"arrays\":{},\"result\":4294967295}
uint32;0 0 0 0 0 0 0 1;element 0 of parameter 0 is no value of its type
int64;0 0 0 0 0 0 0 128;{\"arrays\":{},\"result\":-9223372036854775808}
int64;255 255 255 255 255 255 255 255;{\"arrays\":{},\"result\":-1}
uint64;255 255 255 255 255 255 255 255;{\"arrays\":{},\"result\":18446744073709551615}
bool[];3 0 0 0 0 0 0 0 0 1 1;{\"arrays\":{\"p0\":[false,true,true]},\"result\":null}
int8[];2 0 0 0 0 0 0 0 128 127;{\"arrays\":{\"p0\":[-128,127]},\"result\":null}
uint8[];2 0 0 0 0 0 0 0 0 255;{\"arrays\":{\"p0\":[0,255]},\"result\":null}
uint8[];0 0 0 0 0 0 0 0;{\"arrays\":{\"p0\":[]},\"result\":null}
int16[];2 0 0 0 0 0 0 0 0 128 255 127;{\"arrays\":{\"p0\":[-32768,32767]},\"result\":null}
uint16[];2 0 0 0 0 0 0 0 1 0 2 1;{\"arrays\":{\"p0\":[1,258]},\"result\":null}
int32[];2 0 0 0 0 0 0 0 254 255 255 255 0 0 0 128;{\"arrays\":{\"p0\":[-2,-2147483648]},\"result\":null}
uint32[];1 0 0 0 0 0 0 0 1 2 3 4;{\"arrays\":{\"p0\":[67305985]},\"result\":null}
int64[];1 0 0 0 0 0 0 0 0 0 0 0 0 0 0 128;{\"arrays\":{\"p0\":[-9223372036854775808]},\"result\":null}
uint64[];1 0 0 0 0 0 0 0 1 0 0 0 0 0 0 128;{\"arrays\":{\"p0\":[9223372036854775809]},\"result\":null}
bool[];3 0 0 0 0 0 0 0 1 2;element 1 of parameter 0 is no value of its type
bool[];3 0 0 0 0 0 0 0 1 0;the bytes end before parameter 0 does
bool[];2 0 0 0 0 0 0 0 1 0 2;there are bytes behind the last parameter
uint16[];3 0 0 0 0 0 0 0 1 0 2 0 3;the bytes end before parameter 0 does
uint8[];0 0 0 1 0 0 0 0;the bytes end before parameter 0 does
uint8[];1 0 0 1 0 0 0 0;the bytes end before parameter 0 does
uint8[];255 255 255 255 255 255 255 127;the bytes end before parameter 0 does
uint64[];255 255 255 255 255 255 255 31;the bytes end before parameter 0 does
uint64[];0 0 0 0 0 0 0 32;the bytes end before parameter 0 does
uint64[];1 0 0 0 0 0 0 32 9 9 9 9 9 9 9 9;the bytes end before parameter 0 does
bool[];255 255 255 255 255 255 255 127 1 2;element 1 of parameter 0 is no value of its type
uint8[];0 0 0 0 0 0 0 128;parameter 0 has more than 9223372036854775807 elements
uint64[];255 255 255 255 255 255 255 255;parameter 0 has more than 9223372036854775807 elements
;;{\"arrays\":{},\"result\":null}
;0;there are bytes behind the last parameter
int8;1 0 0 0 0 0 0;the bytes end before parameter 0 does
int8;1 0 0 0 0 0 0 0 0;there are bytes behind the last parameter
int8 int8;1 0 0 0 0 0 0 0;the bytes end before parameter 1 does
bool int8[];2 0 0 0 0 0 0 0;element 0 of parameter 0 is no value of its type
int8[] bool;1 0 0 0 0 0 0 0 5 2 0 0 0 0 0 0 0;element 0 of parameter 1 is no value of its type
uint16[] int8[] int8;1 0 0 0 0 0 0 0 7 0 1 0 0 0 0 0 0 0 255 254 0 0 0 0 0 0 0;{\"arrays\":{\"p0\":[7],\"p1\":[-1]},\"result\":-2}
";
