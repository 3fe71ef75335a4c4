//! Templates of headers, with `@name@` for what differs.

/// The head of each header, up to its own types.
pub const HEAD: &str =
    "/* Types of `@file@` for C, made by `capnpc-rattle`: change that file, and make them again.
 * linsjoar_types.h says how they are used. */
#ifndef @guard@
#define @guard@

#include \"linsjoar_types.h\"

#if LINSJOAR_VERSION != 1000
#error \"this header needs Linsjoar 0.1.0: make it again with the capnpc-rattle of the version that is there\"
#endif
";

/// The end of each header.
pub const END: &str = "
#endif
";

/// What is said of an interface.
pub const LEFT_OUT_INTERFACE: &str = "
/* The interface `@name@` is left out. */
";

/// What is said of an enum of no enumerants, which C doesn't have.
pub const LEFT_OUT_ENUM: &str = "/* The enum `@name@` is left out: it has no enumerants. */
";

/// What is said of a field that has no getter.
pub const LEFT_OUT: &str = "
/* The field `@field@` is left out: it is an interface, or a list of them. */
";

/// What is said of a constant that is left out.
pub const LEFT_OUT_CONSTANT: &str = "
/* The constant `@name@` is left out. */
";

/// An enum, and the enumerator of a number.
pub const ENUM: &str = "enum @tag@ {
@lines@
    @unknown@ = 65535,
};

/* The enumerator of a number. */
static inline enum @tag@ @prefix@_of_number(uint16_t number) {
    return number < @count@ ? (enum @tag@)number : @unknown@;
}
";

/// How a list of enums is read.
pub const ENUM_LIST: &str = "
struct @prefix@_list_reader {
    struct linsjoar_list_reader elements;
};
struct @prefix@_list_orphan {
    uint64_t word;
};

/* How many a list has, and one of them, as an enumerator and as a number; past the last one 0. */
static inline uint32_t @prefix@_list_len(const struct @prefix@_list_reader *list) {
    return linsjoar_list_len(&list->elements);
}
static inline uint16_t @prefix@_list_get_number(const struct @prefix@_list_reader *list, uint32_t index) {
    uint64_t number;
    enum linsjoar_error error = linsjoar_list_get_number(&list->elements, index, &number);
    return error == LINSJOAR_OK ? (uint16_t)number : 0;
}
static inline enum @tag@ @prefix@_list_get(const struct @prefix@_list_reader *list, uint32_t index) {
    return @prefix@_of_number(@prefix@_list_get_number(list, index));
}
";

/// The types of a struct and of a list of them, as they are read and after they are added.
pub const READERS: &str = "struct @name@_reader {
    struct linsjoar_struct_reader fields;
};
struct @name@_list_reader {
    struct linsjoar_list_reader elements;
};
struct @name@_orphan {
    uint64_t word;
};
struct @name@_list_orphan {
    uint64_t word;
};
";

/// How a struct and a list of them are read.
pub const READ: &str = "
/* Opens a framed message, and reads the @name@ at its root: within the default limits, or within these. */
static inline LINSJOAR_CHECKED enum linsjoar_error @name@_root(const uint8_t *bytes, size_t len, struct linsjoar_reader *reader, struct @name@_reader *value) {
    return linsjoar_open_root(bytes, len, NULL, reader, &value->fields);
}
static inline LINSJOAR_CHECKED enum linsjoar_error @name@_root_with_options(const uint8_t *bytes, size_t len, const struct linsjoar_options *options, struct linsjoar_reader *reader, struct @name@_reader *value) {
    return linsjoar_open_root(bytes, len, options, reader, &value->fields);
}

/* Reads the @name@ that a pointer points to, or a list of them. Null is an empty one. */
static inline LINSJOAR_CHECKED enum linsjoar_error @name@_read(const struct linsjoar_pointer_reader *pointer, struct @name@_reader *value) {
    return linsjoar_read_struct(pointer, &value->fields);
}
static inline LINSJOAR_CHECKED enum linsjoar_error @name@_list_read(const struct linsjoar_pointer_reader *pointer, struct @name@_list_reader *value) {
    return linsjoar_read_list(pointer, LINSJOAR_STRUCTS, &value->elements);
}

/* The same struct, counted in another reader, as each thread has one: a copy of the reader that opened the message. It
 * dangles without that reader and without the bytes. Threads may share both the bytes and what was read, and no reader. */
static inline struct @name@_reader @name@_bind(struct @name@_reader read, struct linsjoar_reader *reader) {
    read.fields.source.reader = reader;
    return read;
}

/* How many a list has, and one of them; past the last one an empty one. */
static inline uint32_t @name@_list_len(const struct @name@_list_reader *list) {
    return linsjoar_list_len(&list->elements);
}
static inline struct @name@_reader @name@_list_get(const struct @name@_list_reader *list, uint32_t index) {
    struct @name@_reader value;
    if (linsjoar_list_get_struct(&list->elements, index, &value.fields) != LINSJOAR_OK)
        memset(&value.fields.fields, 0, sizeof value.fields.fields);
    return value;
}
";

/// A list of lists, which several headers may declare.
pub const LIST_OF_LISTS: &str = "
#ifndef LINSJOAR_HAS_@name@_list
#define LINSJOAR_HAS_@name@_list
LINSJOAR_LIST_OF_LISTS(@name@, @code@)
#endif
";

/// Which member of a union is set.
pub const WHICH: &str = "
/* Which member of the union is set, and its number, also where a newer schema has it. */
static inline uint16_t @prefix@_get_which_number(const struct @struct@_reader *read) {
    return linsjoar_get_u16(&read->fields, @offset@);
}
static inline enum @prefix@_which @prefix@_which(const struct @struct@_reader *read) {
    return @prefix@_which_of_number(@prefix@_get_which_number(read));
}
";

/// The getter of a number.
pub const GET_NUMBER: &str =
    "static inline @type@ @prefix@_get_@field@@suffix@(const struct @struct@_reader *read) {
    return @value@;
}
";

/// The getter of an any pointer.
pub const GET_ANY: &str =
    "static inline struct linsjoar_pointer_reader @prefix@_get_@field@(const struct @struct@_reader *read) {
    return linsjoar_get_pointer(&read->fields, @offset@);
}
";

/// The getter of what a pointer points to.
pub const GET_POINTER: &str =
    "static inline LINSJOAR_CHECKED enum linsjoar_error @prefix@_get_@field@(const struct @struct@_reader *read, struct @view@_reader *value) {
    struct linsjoar_pointer_reader pointer = @pointer@;
    return @call@;
}
";

/// Whether a pointer is set.
pub const HAS: &str = "static inline bool @prefix@_has_@field@(const struct @struct@_reader *read) {
    return linsjoar_has_pointer(&read->fields, @offset@);
}
";

/// A pointer of a struct.
pub const POINTER: &str = "linsjoar_get_pointer(&read->fields, @offset@)";

/// A pointer of a struct that has a default.
pub const POINTER_OR: &str =
    "linsjoar_get_pointer_or(&read->fields, @offset@, @words@, sizeof @words@)";

/// The words of a constant or a default, as a message.
pub const WORDS: &str = "static const uint8_t @name@[@size@] = {
    @lines@
};
";

/// A constant that is a number.
pub const CONSTANT_NUMBER: &str = "static const @type@ @scope@_@name@ = @value@;
";

/// A constant that a pointer points to.
pub const CONSTANT_POINTER: &str =
    "static inline LINSJOAR_CHECKED enum linsjoar_error @scope@_get_@name@(struct @view@_reader *value) {
    struct linsjoar_pointer_reader pointer = linsjoar_constant(@words@, sizeof @words@);
    return @call@;
}
";
